// What each question costs, in look-ups.
use crate::calls::{NO_FACT, add, chain, told};
use counting::Counting;
use facts::fact::{Fact, Kind};
use facts::store::Store;
use list::List;
use rules::change::Change;
use rules::judge::judge_quickly;
use rules::roles::{carries, holds, reaches, roles_held, roles_reached};

// The look-ups since the last count.
fn since<S: Store>(store: &Counting<S>, last: &mut u64) -> u64 {
    let asked = store.asked();
    let more = asked.saturating_sub(*last);
    *last = asked;
    more
}

// The look-ups of a quick judgement on a fact that is added, whose numbers stand in one line of a test.
fn judged<S: Store>(store: &mut Counting<S>, kind: Kind, a: u8, b: u8) -> u64 {
    let before = store.asked();
    let mut sheet = [0u8; 64];
    let _ = judge_quickly(store, Change::Add(Fact::new(kind, a, b, 0)), &mut sheet);
    store.asked().saturating_sub(before)
}

// A counting store has the lower store's most, as its constant and by its call.
#[test]
fn the_most_stays(rt: HostRuntime) {
    assert_eq!(rt;
        (Counting::<List>::MOST, Counting::<List>::most_facts()),
        (4_096, 4_096)
    );
}

// In a chain of four roles, with permission 5 at the third of them. A walk goes on from each role once, by 64 look-ups.
#[test]
fn walks(rt: HostRuntime) {
    let mut places = [NO_FACT; 8];
    let mut store = Counting::new(List::new(&mut places));
    chain(&mut store, 3);
    add(&mut store, Kind::PermissionRole, 5, 2);
    let mut sheet = [0u8; 64];
    let mut last = 0;
    let mut costs = [0u64; 7];
    let _ = told(carries(&mut store, 2, 5, &mut sheet));
    costs[0] = since(&store, &mut last);
    let _ = told(carries(&mut store, 0, 5, &mut sheet));
    costs[1] = since(&store, &mut last);
    let _ = told(carries(&mut store, 0, 6, &mut sheet));
    costs[2] = since(&store, &mut last);
    let _ = told(reaches(&mut store, 1, 1, &mut sheet));
    costs[3] = since(&store, &mut last);
    let _ = told(holds(&mut store, 9, 0, &mut sheet));
    costs[4] = since(&store, &mut last);
    let _ = roles_reached(&mut store, 1, &mut sheet);
    costs[5] = since(&store, &mut last);
    let _ = roles_held(&mut store, 9, &mut sheet);
    costs[6] = since(&store, &mut last);
    assert_eq!(rt; costs, [1, 2 * 64 + 3, 4 * 64 + 4, 0, 64, 3 * 64, 5 * 64]);
    assert_eq!(rt; store.changed(), 5);
}

// A quick judgement looks at what the change can break. For a user's new assignment that is the user's party alone: the user's
// own roles, and who conflicts with the user. The fact that is added is not asked for.
#[test]
fn quick_judgements(rt: HostRuntime) {
    let mut places = [NO_FACT; 16];
    let mut store = Counting::new(List::new(&mut places));
    chain(&mut store, 3);
    for user in 10..16u8 {
        add(&mut store, Kind::UserRole, user, 3);
    }
    assert_eq!(rt;
        [
            judged(&mut store, Kind::UserRole, 10, 4),
            judged(&mut store, Kind::OpenCase, 31, 0),
            judged(&mut store, Kind::Finished, 0, 0),
            judged(&mut store, Kind::TaskRole, 3, 3),
        ],
        [63 + 2 * 64 + 4 + 128, 32 * 32, 0, 63 + 32]
    );
}
