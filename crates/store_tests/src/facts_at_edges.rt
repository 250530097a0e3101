// The ranges of the kinds' entries, the numbers of the kinds, and the numbering of the facts.
// Kinds stand as their numbers, so that a test does not lean on the enum that it tests.
use facts::fact::{Fact, Kind, UnknownKind};
use facts::refusal::Refusal;
use grid::numbering::bit_number;
use std::test::Fail;

// The last fact of each kind.
const LAST: [Fact; 12] = [
    Fact {
        kind: 1,
        a: 127,
        b: 63,
        c: 0,
    },
    Fact {
        kind: 2,
        a: 63,
        b: 63,
        c: 0,
    },
    Fact {
        kind: 3,
        a: 31,
        b: 63,
        c: 0,
    },
    Fact {
        kind: 4,
        a: 63,
        b: 63,
        c: 0,
    },
    Fact {
        kind: 5,
        a: 127,
        b: 127,
        c: 0,
    },
    Fact {
        kind: 6,
        a: 63,
        b: 63,
        c: 0,
    },
    Fact {
        kind: 7,
        a: 63,
        b: 63,
        c: 0,
    },
    Fact {
        kind: 8,
        a: 31,
        b: 31,
        c: 0,
    },
    Fact {
        kind: 9,
        a: 31,
        b: 31,
        c: 0,
    },
    Fact {
        kind: 10,
        a: 31,
        b: 0,
        c: 0,
    },
    Fact {
        kind: 11,
        a: 31,
        b: 31,
        c: 127,
    },
    Fact {
        kind: 12,
        a: 31,
        b: 31,
        c: 0,
    },
];

#[test]
fn every_range_ends_where_it_should(rt: HostRuntime) {
    for f in LAST {
        assert!(rt; f.is_fact(), "the last of each entry");
        assert!(rt;
            !Fact {
                a: f.a.wrapping_add(1),
                ..f
            }
            .is_fact(),
            "first entry"
        );
        assert!(rt;
            !Fact {
                b: f.b.wrapping_add(1),
                ..f
            }
            .is_fact(),
            "second entry"
        );
        assert!(rt;
            !Fact {
                c: f.c.wrapping_add(1),
                ..f
            }
            .is_fact(),
            "third entry"
        );
        assert!(rt;
            Fact {
                a: 0,
                b: 0,
                c: 0,
                ..f
            }
            .is_fact(),
            "the first of each entry"
        );
    }
}

#[test]
fn twelve_kinds_from_1(rt: HostRuntime) -> Result<(), Fail> {
    assert_eq!(rt; Kind::try_from(0).ok(), None);
    assert_eq!(rt; Kind::try_from(13).ok(), None);
    assert_eq!(rt; Kind::try_from(255).ok(), None);
    for number in 1..13 {
        let kind = Kind::try_from(number)?;
        assert_eq!(rt; u8::from(kind), number);
    }
    assert_eq!(rt;
        Fact::new(Kind::Taken, 3, 5, 20),
        Fact {
            kind: 11,
            a: 3,
            b: 5,
            c: 20,
        }
    );
    Ok(())
}

#[test]
fn numbers_run_on_from_kind_to_kind(rt: HostRuntime) -> Result<(), Fail> {
    let mut next = 0usize;
    for f in LAST {
        assert_eq!(rt;
            bit_number(Fact {
                a: 0,
                b: 0,
                c: 0,
                ..f
            }),
            Some(next)
        );
        let last = bit_number(f).ok_or("no fact")?;
        next = last.saturating_add(1);
    }
    assert_eq!(rt; next, 177_184);
    assert_eq!(rt;
        bit_number(Fact {
            kind: 13,
            a: 0,
            b: 0,
            c: 0,
        }),
        None
    );
    assert_eq!(rt;
        bit_number(Fact {
            kind: 10,
            a: 0,
            b: 1,
            c: 0,
        }),
        None
    );
    Ok(())
}

#[test]
fn refusals_have_their_numbers(rt: HostRuntime) {
    assert_eq!(rt; u8::from(Refusal::NoFact), 1);
    assert_eq!(rt; u8::from(Refusal::Full), 23);
}

#[test]
fn errors_have_their_texts(rt: HostRuntime) -> Result<(), Fail> {
    let no_fact = format!(in rt.alloc(); "{}", Refusal::NoFact)?;
    assert_eq!(rt; no_fact.as_str(), "the four numbers are no fact");
    let full = format!(in rt.alloc(); "{}", Refusal::Full)?;
    assert_eq!(rt; full.as_str(), "the store has no spare");
    let unknown = format!(in rt.alloc(); "{}", UnknownKind(13))?;
    assert_eq!(rt; unknown.as_str(), "no kind has the number 13");
    Ok(())
}
