// The calls with the numbers of rules and refusals in their answers, so that a test shows a wrong number too, and several answers
// at once.
use facts::fact::{Fact, Kind};
use facts::store::Store;
use rules::change::Change;
use rules::judge::{judge, judge_quickly};
use rules::refusal::Refusal;
use rules::role_set::RoleSet;
use rules::rule::Rule;

pub(crate) const NO_FACT: Fact = Fact {
    kind: 0,
    a: 0,
    b: 0,
    c: 0,
};

// The answer, or the number of the refusal.
pub(crate) fn told(answer: Result<bool, Refusal>) -> Result<bool, u8> {
    answer.map_err(u8::from)
}

// How many roles are in a set, or the number of the refusal.
pub(crate) fn size(answer: Result<RoleSet, Refusal>) -> Result<usize, u8> {
    answer
        .map(|roles| (0..64u32).filter(|role| roles.contains(*role)).count())
        .map_err(u8::from)
}

// Puts a fact of two entries, which stand in one line of a test; false if it is refused.
pub(crate) fn add<S: Store>(store: &mut S, kind: Kind, a: u8, b: u8) -> bool {
    store.put(Fact::new(kind, a, b, 0)).is_ok()
}

// The links of a chain from role 0 down to role `last`, and user 9 assigned to role 0.
pub(crate) fn chain<S: Store>(store: &mut S, last: u8) {
    for role in 0..last {
        add(store, Kind::Senior, role, role.saturating_add(1));
    }
    add(store, Kind::UserRole, 9, 0);
}

// The number of the rule that a change would break, or of the refusal.
pub(crate) type Verdict = Result<Option<u8>, u8>;

// Verdicts that a full and a quick judgement share.
pub(crate) const BREAKS_NONE: (Verdict, Verdict) = (Ok(None), Ok(None));

pub(crate) const OUT_OF_RANGE: (Verdict, Verdict) = (Err(1), Err(1));

pub(crate) fn breaks(rule: u8) -> (Verdict, Verdict) {
    (Ok(Some(rule)), Ok(Some(rule)))
}

pub(crate) fn number(verdict: Result<Option<Rule>, Refusal>) -> Verdict {
    verdict.map(|rule| rule.map(u8::from)).map_err(u8::from)
}

// What a full and a quick judgement say of a change.
pub(crate) fn verdicts<S: Store>(store: &mut S, change: Change) -> (Verdict, Verdict) {
    let mut sheet = [7u8; 64];
    let full = number(judge(store, change, &mut sheet));
    let quick = number(judge_quickly(store, change, &mut sheet));
    (full, quick)
}

// Here and in `removing` a change stands in one line of a test: with a `Fact` built at each call a test would be no plainer. Each
// makes one variant of a change, as the enum does.
pub(crate) fn adding<S: Store>(store: &mut S, kind: Kind, a: u8, b: u8) -> (Verdict, Verdict) {
    verdicts(store, Change::Add(Fact::new(kind, a, b, 0)))
}

pub(crate) fn removing<S: Store>(store: &mut S, kind: Kind, a: u8, b: u8) -> (Verdict, Verdict) {
    verdicts(store, Change::Remove(Fact::new(kind, a, b, 0)))
}
