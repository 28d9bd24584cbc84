use crate::*;
use std::alloc::{AllocError, Global};
use std::process::Abort;
use std::test::Fail;
use terms::Refusal;

// A month, a limit, an injection node, a withdrawal node, and what the source answers.
type Question = (u32, u32, u32, u32, Option<i32>);

fn check_answers<S: FactorSource>(rt: &impl Abort, source: &S, questions: &[Question]) {
    for (month, limit, injection, withdrawal, answer) in questions {
        assert_eq!(rt;
            source.factor(*month, *limit, *injection, *withdrawal),
            *answer
        );
    }
}

// Two limits and three nodes, with the square of its place at each of the first 71 of 72 places.
fn squares(heap: Global) -> Result<NodeTable, AllocError> {
    let mut table = NodeTable::new(heap, 2, 3);
    for place in 0..71_i32 {
        table.push(place.wrapping_mul(place))?;
    }
    Ok(table)
}

const PLACES: [Question; 14] = [
    (1, 1, 1, 0, Some(1)),
    (1, 1, 0, 1, Some(-1)),
    (1, 2, 0, 2, Some(9 - 25)),
    (2, 1, 2, 0, Some(64 - 36)),
    (12, 2, 1, 0, Some(4900 - 4761)),
    (1, 1, 2, 2, Some(0)),
    // beyond the months, the limits and the nodes
    (0, 1, 0, 1, None),
    (13, 1, 0, 1, None),
    (1, 0, 0, 1, None),
    (1, 3, 0, 1, None),
    (1, 1, 3, 0, None),
    (1, 1, 0, 3, None),
    // the last entry is wanting
    (12, 2, 2, 0, None),
    (12, 2, 0, 2, None),
];

const ENTRIES: [i32; 5] = [1_000_000, -1_000_000, 1_000_001, -1_000_001, i32::MIN];

const RANGES: [Question; 7] = [
    (1, 1, 0, 1, Some(2_000_000)),
    (1, 1, 1, 0, Some(-2_000_000)),
    (1, 1, 2, 0, None),
    (1, 1, 0, 2, None),
    (1, 1, 3, 1, None),
    (1, 1, 1, 3, None),
    (1, 1, 4, 4, None),
];

const FIVE: [Question; 1] = [(1, 1, 0, 1, Some(5))];

const NONE: [Question; 1] = [(1, 1, 0, 1, None)];

#[test]
fn node_table(rt: HostRuntime) -> Result<(), Fail> {
    check_answers(&rt, &squares(rt.alloc())?, &PLACES);
    check_answers(
        &rt,
        &NodeTable::from_entries(48, 64, ENTRIES.to_vec(rt.alloc())?),
        &RANGES,
    );
    check_answers(
        &rt,
        &NodeTable::from_entries(49, 64, ENTRIES.to_vec(rt.alloc())?),
        &NONE,
    );
    check_answers(
        &rt,
        &NodeTable::from_entries(48, 65, ENTRIES.to_vec(rt.alloc())?),
        &NONE,
    );
    Ok(())
}

const fn row(month: u32, limit: u32, injection: u32, withdrawal: u32, factor: i32) -> PairRow {
    PairRow {
        month,
        limit,
        injection,
        withdrawal,
        factor,
    }
}

const FIRST: [Question; 9] = [
    (1, 1, 0, 1, Some(5)),
    (1, 1, 1, 0, None),
    (1, 2, 0, 1, Some(2_000_000)),
    (2, 1, 0, 1, Some(-2_000_000)),
    (2, 2, 0, 1, None),
    (0, 99, 100, 100, Some(8)),
    (1, 1, 1, 1, None),
    (1, 1, 0, 0, None),
    (13, 1, 0, 1, None),
];

#[test]
fn pair_list(rt: HostRuntime) -> Result<(), Fail> {
    let mut list = PairList::new(rt.alloc());
    check_answers(&rt, &list, &NONE);
    let rows = [
        row(1, 1, 0, 1, 5),
        row(1, 1, 0, 1, 6),
        row(1, 1, 1, 0, 2_000_001),
        row(1, 1, 1, 0, 7),
        row(1, 2, 0, 1, 2_000_000),
        row(2, 1, 0, 1, -2_000_000),
        row(2, 2, 0, 1, -2_000_001),
        row(0, 99, 100, 100, 8),
    ];
    for r in rows {
        list.push(r)?;
    }
    check_answers(&rt, &list, &FIRST);
    Ok(())
}

#[test]
fn long_pair_list(rt: HostRuntime) -> Result<(), Fail> {
    let mut list = PairList::from(vec![in rt.alloc(); row(1, 1, 0, 1, 5); 1_000_000]?);
    check_answers(&rt, &list, &FIVE);
    list.push(row(1, 1, 0, 1, 5))?;
    check_answers(&rt, &list, &NONE);
    Ok(())
}

#[test]
fn worst_flows(rt: HostRuntime) {
    let cases: [(u32, i32, i64, i64); 7] = [
        (0, 2_000_000, 0, 0),
        (1, 1, 1, 1),
        (1, 0, 0, 0),
        (1, -1, 0, -1),
        (1_000_000, 2_000_000, 2_000_000_000_000, 2_000_000_000_000),
        (1_000_000, -2_000_000, 0, -2_000_000_000_000),
        (150_000, -1_000_000, 0, -150_000_000_000),
    ];
    for (power, factor, firm, obligation) in cases {
        assert_eq!(rt; FirmRule.worst_flow(power, factor), firm);
        assert_eq!(rt; ObligationRule.worst_flow(power, factor), obligation);
    }
}

// A right as a limit sees it, with its mark.
const fn right(
    power: u32,
    injection: u32,
    withdrawal: u32,
    last: u32,
    marked: bool,
) -> RightAtLimit {
    RightAtLimit {
        power,
        injection,
        withdrawal,
        first: 2,
        last,
        marked,
    }
}

// A southward right, a northward one, one that is not valid in month 2 and one whose pair is not marked.
#[test]
fn southward_and_northward(rt: HostRuntime) -> Result<(), Fail> {
    let rows = [row(2, 1, 0, 1, 1_000_000), row(2, 1, 1, 0, -1_000_000)];
    let source = PairList::from(rows.to_vec(rt.alloc())?);
    let rights = [
        right(200_000, 0, 1, 2, true),
        right(150_000, 1, 0, 4, true),
        right(100_000, 0, 1, 1, true),
        right(100_000, 5, 5, 4, false),
    ];
    assert_eq!(rt;
        worst_load(&source, &FirmRule, 2, 1, &rights),
        Ok(200_000_000_000)
    );
    assert_eq!(rt;
        worst_load(&source, &ObligationRule, 2, 1, &rights),
        Ok(50_000_000_000)
    );
    assert_eq!(rt;
        worst_load(&source, &FirmRule, 3, 1, &rights),
        Err(Refusal::NoFactor {
            place: 2,
            month: 3,
            limit: 1
        })
    );
    assert_eq!(rt; worst_load(&source, &FirmRule, 5, 1, &rights), Ok(0));
    assert_eq!(rt;
        within_bound(&source, &FirmRule, 2, 1, &rights, 200_000_000_000),
        Ok(true)
    );
    assert_eq!(rt;
        within_bound(&source, &FirmRule, 2, 1, &rights, 199_999_999_999),
        Ok(false)
    );
    Ok(())
}

#[test]
fn refused_loads(rt: HostRuntime) -> Result<(), Fail> {
    let source = PairList::new(rt.alloc());
    let over = [
        right(1_000_000, 0, 1, 2, false),
        right(1_000_001, 0, 1, 2, false),
    ];
    assert_eq!(rt;
        worst_load(&source, &FirmRule, 2, 1, &over),
        Err(Refusal::BadLine { place: 2 })
    );
    let mut many = vec![in rt.alloc(); right(1, 0, 1, 2, false); 1_000_000]?;
    assert_eq!(rt; worst_load(&source, &FirmRule, 2, 1, &many), Ok(0));
    many.push(right(1, 0, 1, 2, false))?;
    assert_eq!(rt;
        worst_load(&source, &FirmRule, 2, 1, &many),
        Err(Refusal::NoRoom)
    );
    Ok(())
}
