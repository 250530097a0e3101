// Which rule a change would break, by a full and by a quick judgement.
use crate::calls::{
    BREAKS_NONE, NO_FACT, OUT_OF_RANGE, add, adding, breaks, chain, removing, verdicts,
};
use facts::fact::{Fact, Kind};
use facts::store::Store;
use list::List;
use rules::change::Change;

// A release: role 2 tunes and is above role 1, which reads; role 3 approves, and conflicts with role 2.
fn network<S: Store>(store: &mut S) {
    for (kind, a, b) in [
        (Kind::Senior, 2, 1),
        (Kind::PermissionRole, 10, 1),
        (Kind::PermissionRole, 11, 2),
        (Kind::PermissionRole, 12, 3),
        (Kind::TaskRole, 5, 2),
        (Kind::TaskRole, 6, 3),
        (Kind::TaskRole, 7, 1),
    ] {
        add(store, kind, a, b);
    }
}

fn conflicts<S: Store>(store: &mut S) {
    add(store, Kind::RoleConflict, 2, 3);
    add(store, Kind::PermissionConflict, 11, 12);
    add(store, Kind::Senior, 4, 2);
}

fn users<S: Store>(store: &mut S) {
    add(store, Kind::UserRole, 20, 2);
    add(store, Kind::UserConflict, 20, 21);
    add(store, Kind::UserRole, 21, 1);
    add(store, Kind::UserRole, 22, 1);
}

#[test]
fn a_release_step_by_step(rt: HostRuntime) {
    let mut places = [NO_FACT; 24];
    let mut store = List::new(&mut places);
    network(&mut store);
    let cycle = adding(&mut store, Kind::Senior, 1, 2);
    let permissions = adding(&mut store, Kind::PermissionConflict, 11, 12);
    conflicts(&mut store);
    let loosened = removing(&mut store, Kind::RoleConflict, 2, 3);
    let both = adding(&mut store, Kind::Senior, 4, 3);
    users(&mut store);
    let own = adding(&mut store, Kind::UserRole, 20, 3);
    let party = adding(&mut store, Kind::UserRole, 21, 3);
    add(&mut store, Kind::TaskConflict, 5, 6);
    let tasks = adding(&mut store, Kind::TaskConflict, 5, 7);
    let none = verdicts(&mut store, Change::Nothing);
    assert_eq!(rt;
        [cycle, permissions, loosened, both, own, party, tasks, none],
        [
            breaks(1),
            breaks(4),
            breaks(4),
            breaks(2),
            breaks(3),
            breaks(3),
            breaks(5),
            BREAKS_NONE,
        ]
    );
}

fn taken(case: u8, task: u8, user: u8) -> Change {
    Change::Add(Fact::new(Kind::Taken, case, task, user))
}

// Tasks 5 and 7 are at odds, and users 20 and 21 conflict; in case 0 user 20 took 5, and user 22 took 7.
#[test]
fn takers_in_open_cases(rt: HostRuntime) {
    let mut places = [NO_FACT; 8];
    let mut store = List::new(&mut places);
    add(&mut store, Kind::UserConflict, 20, 21);
    add(&mut store, Kind::AtOdds, 5, 7);
    let _ = store.put(Fact::new(Kind::Taken, 0, 5, 20));
    let _ = store.put(Fact::new(Kind::Taken, 0, 7, 22));
    let closed = [
        adding(&mut store, Kind::UserConflict, 20, 22),
        verdicts(&mut store, taken(0, 7, 20)),
        adding(&mut store, Kind::OpenCase, 0, 0),
    ];
    add(&mut store, Kind::OpenCase, 0, 0);
    let open = [
        adding(&mut store, Kind::UserConflict, 20, 22),
        adding(&mut store, Kind::UserConflict, 22, 20),
        verdicts(&mut store, taken(0, 7, 20)),
        verdicts(&mut store, taken(0, 7, 21)),
        verdicts(&mut store, taken(0, 5, 22)),
        verdicts(&mut store, taken(0, 6, 20)),
        verdicts(&mut store, taken(1, 7, 20)),
        adding(&mut store, Kind::AtOdds, 5, 6),
        adding(&mut store, Kind::UserConflict, 21, 22),
    ];
    assert_eq!(rt; closed, [BREAKS_NONE; 3]);
    assert_eq!(rt;
        open,
        [
            breaks(6),
            BREAKS_NONE,
            breaks(6),
            breaks(6),
            breaks(6),
            BREAKS_NONE,
            BREAKS_NONE,
            BREAKS_NONE,
            BREAKS_NONE,
        ]
    );
}

// Conflicts of two roles whose lower number stands on either side: of one role, of one user and of two.
#[test]
fn conflicts_in_both_orders(rt: HostRuntime) {
    let mut places = [NO_FACT; 12];
    let mut store = List::new(&mut places);
    add(&mut store, Kind::RoleConflict, 2, 3);
    add(&mut store, Kind::Senior, 8, 2);
    add(&mut store, Kind::Senior, 1, 3);
    add(&mut store, Kind::UserRole, 30, 2);
    add(&mut store, Kind::UserRole, 31, 3);
    assert_eq!(rt;
        [
            adding(&mut store, Kind::Senior, 8, 3),
            adding(&mut store, Kind::Senior, 1, 2),
            adding(&mut store, Kind::Senior, 3, 2),
            adding(&mut store, Kind::Senior, 2, 3),
            adding(&mut store, Kind::UserRole, 30, 3),
            adding(&mut store, Kind::UserRole, 31, 2),
            adding(&mut store, Kind::UserRole, 31, 8),
            adding(&mut store, Kind::UserRole, 30, 1),
        ],
        [
            breaks(2),
            breaks(2),
            breaks(2),
            breaks(2),
            breaks(3),
            breaks(3),
            breaks(3),
            breaks(3),
        ]
    );
    assert_eq!(rt;
        [
            adding(&mut store, Kind::UserConflict, 30, 31),
            adding(&mut store, Kind::UserConflict, 31, 30),
            adding(&mut store, Kind::RoleConflict, 2, 8),
            adding(&mut store, Kind::RoleConflict, 8, 2),
            adding(&mut store, Kind::RoleConflict, 1, 8),
        ],
        [breaks(3), BREAKS_NONE, breaks(2), BREAKS_NONE, BREAKS_NONE]
    );
}

// Users of one party in a chain of conflicts: 40 with 41, and 41 with 42, but 40 not with 42.
#[test]
fn parties_are_not_transitive(rt: HostRuntime) {
    let mut places = [NO_FACT; 8];
    let mut store = List::new(&mut places);
    add(&mut store, Kind::RoleConflict, 2, 3);
    add(&mut store, Kind::UserConflict, 40, 41);
    add(&mut store, Kind::UserConflict, 41, 42);
    add(&mut store, Kind::UserRole, 40, 2);
    assert_eq!(rt;
        [
            adding(&mut store, Kind::UserRole, 42, 3),
            adding(&mut store, Kind::UserRole, 41, 3),
            adding(&mut store, Kind::UserConflict, 40, 42),
        ],
        [BREAKS_NONE, breaks(3), BREAKS_NONE]
    );
}

// One role that is assigned both of two conflicting permissions breaks the rule, unless it conflicts with itself.
#[test]
fn one_role_with_both_permissions(rt: HostRuntime) {
    let mut places = [NO_FACT; 4];
    let mut store = List::new(&mut places);
    add(&mut store, Kind::PermissionRole, 10, 6);
    add(&mut store, Kind::PermissionConflict, 10, 11);
    assert_eq!(rt;
        [
            adding(&mut store, Kind::PermissionRole, 11, 6),
            adding(&mut store, Kind::PermissionConflict, 10, 10),
        ],
        [breaks(4), breaks(4)]
    );
}

// Cycles of one, two and 64 links, in facts that break the rule already, and changes that are no fact.
#[test]
fn cycles_and_no_facts(rt: HostRuntime) {
    let mut places = [NO_FACT; 66];
    let mut store = List::new(&mut places);
    chain(&mut store, 63);
    let closing = [
        adding(&mut store, Kind::Senior, 5, 5),
        adding(&mut store, Kind::Senior, 1, 0),
        adding(&mut store, Kind::Senior, 63, 0),
        adding(&mut store, Kind::Senior, 0, 63),
        adding(&mut store, Kind::Senior, 64, 0),
        adding(&mut store, Kind::UserRole, 128, 0),
        removing(&mut store, Kind::TaskRole, 32, 0),
        verdicts(&mut store, Change::Add(NO_FACT)),
    ];
    add(&mut store, Kind::Senior, 63, 0);
    let (broken, _) = verdicts(&mut store, Change::Nothing);
    let (mended, _) = removing(&mut store, Kind::Senior, 30, 31);
    assert_eq!(rt;
        closing,
        [
            breaks(1),
            breaks(1),
            breaks(1),
            BREAKS_NONE,
            OUT_OF_RANGE,
            OUT_OF_RANGE,
            OUT_OF_RANGE,
            OUT_OF_RANGE,
        ]
    );
    assert_eq!(rt; [broken, mended], [Ok(Some(1)), Ok(None)]);
}

// A full store judges too: the change is not put.
#[test]
fn full_stores_judge(rt: HostRuntime) {
    let mut places = [NO_FACT; 2];
    let mut store = List::new(&mut places);
    add(&mut store, Kind::RoleConflict, 2, 3);
    add(&mut store, Kind::UserRole, 30, 2);
    assert_eq!(rt;
        [
            adding(&mut store, Kind::UserRole, 30, 3),
            adding(&mut store, Kind::UserRole, 31, 3),
        ],
        [breaks(3), BREAKS_NONE]
    );
    assert_eq!(rt;
        (store.spare(), add(&mut store, Kind::UserRole, 31, 3)),
        (0, false)
    );
}
