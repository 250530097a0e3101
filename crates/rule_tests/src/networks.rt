// Chains, diamonds, ranges, sheets and the texts of refusals.
use crate::calls::{NO_FACT, add, chain, number, size, told};
use facts::fact::Kind;
use facts::store::Store;
use list::List;
use rules::change::Change;
use rules::judge::{judge, judge_quickly};
use rules::refusal::Refusal;
use rules::roles::{
    carries, has_permission, holds, lies_above, reaches, roles_held, roles_reached,
};
use std::test::Fail;

// Of a chain from role 0 down to `last`, with permission 5 assigned to `last` and user 9 to role 0.
fn along(last: u8) -> ([Result<bool, u8>; 8], [Result<usize, u8>; 3]) {
    let mut places = [NO_FACT; 66];
    let mut store = List::new(&mut places);
    chain(&mut store, last);
    add(&mut store, Kind::PermissionRole, 5, last);
    let end = last as u32;
    let mut sheet = [7u8; 64];
    let answers = [
        told(reaches(&mut store, 0, end, &mut sheet)),
        told(reaches(&mut store, end, 0, &mut sheet)),
        told(reaches(&mut store, end, end, &mut sheet)),
        told(lies_above(&mut store, 0, end, &mut sheet)),
        told(lies_above(&mut store, 0, 0, &mut sheet)),
        told(holds(&mut store, 9, end, &mut sheet)),
        told(carries(&mut store, 0, 5, &mut sheet)),
        told(has_permission(&mut store, 9, 5, &mut sheet)),
    ];
    let sizes = [
        size(roles_reached(&mut store, 0, &mut sheet)),
        size(roles_reached(&mut store, end, &mut sheet)),
        size(roles_held(&mut store, 9, &mut sheet)),
    ];
    (answers, sizes)
}

#[test]
fn chains_of_length_1_2_and_63(rt: HostRuntime) {
    let answers = [
        Ok(true),
        Ok(false),
        Ok(true),
        Ok(true),
        Ok(false),
        Ok(true),
        Ok(true),
        Ok(true),
    ];
    assert_eq!(rt;
        [along(1), along(2), along(63)],
        [
            (answers, [Ok(2), Ok(1), Ok(2)]),
            (answers, [Ok(3), Ok(1), Ok(3)]),
            (answers, [Ok(64), Ok(1), Ok(64)]),
        ]
    );
}

// Role 0 is above 1 and 2, and both are above 3; user 4 is assigned to 1, and permission 6 to 2.
#[test]
fn diamond(rt: HostRuntime) {
    let mut places = [NO_FACT; 8];
    let mut store = List::new(&mut places);
    for (senior, junior) in [(0, 1), (0, 2), (1, 3), (2, 3)] {
        add(&mut store, Kind::Senior, senior, junior);
    }
    add(&mut store, Kind::UserRole, 4, 1);
    add(&mut store, Kind::PermissionRole, 6, 2);
    let mut sheet = [7u8; 64];
    assert_eq!(rt;
        [
            told(reaches(&mut store, 0, 3, &mut sheet)),
            told(reaches(&mut store, 1, 2, &mut sheet)),
            told(lies_above(&mut store, 2, 3, &mut sheet)),
            told(holds(&mut store, 4, 3, &mut sheet)),
            told(holds(&mut store, 4, 2, &mut sheet)),
            told(carries(&mut store, 0, 6, &mut sheet)),
            told(carries(&mut store, 3, 6, &mut sheet)),
            told(has_permission(&mut store, 4, 6, &mut sheet)),
        ],
        [
            Ok(true),
            Ok(false),
            Ok(true),
            Ok(true),
            Ok(false),
            Ok(true),
            Ok(false),
            Ok(false),
        ]
    );
    assert_eq!(rt;
        [
            size(roles_reached(&mut store, 0, &mut sheet)),
            size(roles_held(&mut store, 4, &mut sheet)),
            size(roles_held(&mut store, 5, &mut sheet)),
        ],
        [Ok(4), Ok(2), Ok(0)]
    );
}

// What three calls answer at the end of their two ranges, and one past each.
fn at_ends<S: Store>(store: &mut S) -> [[Result<bool, u8>; 3]; 3] {
    let mut sheet = [7u8; 64];
    [
        [
            told(reaches(store, 63, 62, &mut sheet)),
            told(reaches(store, 64, 63, &mut sheet)),
            told(reaches(store, 63, 64, &mut sheet)),
        ],
        [
            told(lies_above(store, 63, 63, &mut sheet)),
            told(lies_above(store, 64, 63, &mut sheet)),
            told(lies_above(store, 63, 64, &mut sheet)),
        ],
        [
            told(holds(store, 127, 63, &mut sheet)),
            told(holds(store, 128, 63, &mut sheet)),
            told(holds(store, 127, 64, &mut sheet)),
        ],
    ]
}

// Each call at the end of its ranges, and one past it.
#[test]
fn ranges(rt: HostRuntime) {
    let mut places = [NO_FACT; 1];
    let mut store = List::new(&mut places);
    let mut sheet = [7u8; 64];
    assert_eq!(rt; at_ends(&mut store), [[Ok(false), Err(1), Err(1)]; 3]);
    assert_eq!(rt;
        [
            told(carries(&mut store, 63, 63, &mut sheet)),
            told(carries(&mut store, 64, 63, &mut sheet)),
            told(carries(&mut store, 63, 64, &mut sheet)),
            told(has_permission(&mut store, 127, 63, &mut sheet)),
            told(has_permission(&mut store, 128, 63, &mut sheet)),
            told(has_permission(&mut store, 127, 64, &mut sheet)),
            told(has_permission(&mut store, u32::MAX, 0, &mut sheet)),
        ],
        [Ok(false), Err(1), Err(1), Ok(false), Err(1), Err(1), Err(1)]
    );
    assert_eq!(rt;
        [
            size(roles_reached(&mut store, 63, &mut sheet)),
            size(roles_reached(&mut store, 64, &mut sheet)),
            size(roles_held(&mut store, 127, &mut sheet)),
            size(roles_held(&mut store, 128, &mut sheet)),
        ],
        [Ok(1), Err(1), Ok(0), Err(1)]
    );
}

// The first 64 bytes are 0 or 1, and the others are still 7.
fn used_well(sheet: &[u8]) -> bool {
    sheet.iter().enumerate().all(|(place, byte)| if place < 64 { *byte < 2 } else { *byte == 7 })
}

// A sheet of 63 bytes is refused and left, after an entry out of range; of 66 only the first 64 are used.
#[test]
fn sheets(rt: HostRuntime) {
    let mut places = [NO_FACT; 4];
    let mut store = List::new(&mut places);
    chain(&mut store, 3);
    let mut short = [7u8; 63];
    let mut long = [7u8; 66];
    assert_eq!(rt;
        [
            told(holds(&mut store, 9, 3, &mut short)),
            told(holds(&mut store, 128, 3, &mut short)),
            told(holds(&mut store, 128, 3, &mut long)),
        ],
        [Err(2), Err(1), Err(1)]
    );
    assert_eq!(rt; (short, long), ([7; 63], [7; 66]));
    assert_eq!(rt; told(holds(&mut store, 9, 3, &mut long)), Ok(true));
    assert_eq!(rt; used_well(&long), true);
}

// Each call refuses a sheet of 63 bytes, and leaves it.
#[test]
fn short_sheets(rt: HostRuntime) {
    let mut places = [NO_FACT; 1];
    let mut store = List::new(&mut places);
    let mut short = [7u8; 63];
    let answers = [
        told(reaches(&mut store, 1, 2, &mut short)),
        told(lies_above(&mut store, 1, 2, &mut short)),
        told(holds(&mut store, 9, 2, &mut short)),
        told(carries(&mut store, 1, 5, &mut short)),
        told(has_permission(&mut store, 9, 5, &mut short)),
    ];
    let sizes = [
        size(roles_reached(&mut store, 1, &mut short)),
        size(roles_held(&mut store, 9, &mut short)),
    ];
    let verdicts = [
        number(judge(&mut store, Change::Nothing, &mut short)),
        number(judge_quickly(&mut store, Change::Nothing, &mut short)),
    ];
    assert_eq!(rt;
        (answers, sizes, verdicts),
        ([Err(2); 5], [Err(2); 2], [Err(2); 2])
    );
    assert_eq!(rt; short, [7; 63]);
}

#[test]
fn texts_of_refusals(rt: HostRuntime) -> Result<(), Fail> {
    let texts = format!(in rt.alloc(); "{}\n{}", Refusal::OutOfRange, Refusal::ShortSheet)?;
    assert_eq!(rt;
        texts.as_str(),
        "a number is out of its range, or names no fact\nthe sheet is shorter than 64 bytes"
    );
    Ok(())
}
