use crate::LimitKind::{self, Export, Import, Wheeling};
use crate::{Calendar, Reference};
use std::test::Fail;
use terms::Refusal;

// A calendar with a node in area 1 and a wheeling limit of area 2.
fn small() -> Result<Calendar, Refusal> {
    let mut calendar = Calendar::new();
    calendar.add_node(1)?;
    calendar.add_limit(Wheeling.into(), 2, 1, [10_000_000; 12])?;
    Ok(calendar)
}

// The mark of pair 1-3 at a single limit where a reference of that pair has this flow.
fn mark_of(kind: LimitKind, area: u32, flow: i32) -> Result<bool, Refusal> {
    let mut calendar = Calendar::new();
    calendar.add_limit(kind.into(), area, 1, [0; 12])?;
    let reference = Reference {
        injection: 1,
        withdrawal: 3,
    };
    calendar.build_matrix(&[reference], &[flow])?;
    calendar.mark(1, 1)
}

// What a call answers whose arguments fit, or do not.
fn outcome(fits: bool) -> Result<(), Refusal> {
    if fits {
        Ok(())
    } else {
        Err(Refusal::CalendarValue)
    }
}

#[test]
fn prices_have_bounds(rt: HostRuntime) -> Result<(), Fail> {
    for (node, month, price, fits) in [
        (0, 1, -1_000_000, true),
        (0, 12, 1_000_000, true),
        (0, 1, -1_000_001, false),
        (0, 12, 1_000_001, false),
        (0, 0, 0, false),
        (0, 13, 0, false),
        (1, 1, 0, false),
    ] {
        assert_eq!(rt; small()?.set_price(node, month, price), outcome(fits));
    }
    Ok(())
}

#[test]
fn months_and_rows_have_bounds(rt: HostRuntime) -> Result<(), Fail> {
    // the number of a month and of a limit, then hours, a pay day and a row
    for (number, hours, day, row, fits) in [
        (1, 744, 1_000_000, 0x3fff_ffff, true),
        (0, 745, 1_000_001, 0x4000_0000, false),
        (13, u32::MAX, u32::MAX, u32::MAX, false),
    ] {
        assert_eq!(rt; small()?.set_hours(number, 0), outcome(fits));
        assert_eq!(rt; small()?.set_hours(1, hours), outcome(fits));
        assert_eq!(rt; small()?.set_pay_day(1, day), outcome(fits));
        assert_eq!(rt; small()?.set_relation(number, 0), outcome(fits));
        assert_eq!(rt; small()?.set_relation(1, row), outcome(fits));
    }
    Ok(())
}

#[test]
fn kinds_areas_directions_and_values_have_bounds(rt: HostRuntime) {
    for (kind, area, direction, value, fits) in [
        (1, 1, 1, 0, true),
        (3, 6, 2, 10_000_000, true),
        (0, 1, 1, 0, false),
        (4, 1, 1, 0, false),
        (1, 0, 1, 0, false),
        (1, 7, 1, 0, false),
        (1, 1, 0, 0, false),
        (1, 1, 3, 0, false),
        (1, 1, 1, 10_000_001, false),
    ] {
        let added = Calendar::new().add_limit(kind, area, direction, [value; 12]);
        let expected = if fits {
            Ok(1)
        } else {
            Err(Refusal::CalendarValue)
        };
        assert_eq!(rt; added, expected);
    }
}

#[test]
fn a_full_calendar_refuses(rt: HostRuntime) {
    let mut calendar = Calendar::new();
    for number in 0..64 {
        assert_eq!(rt; calendar.add_node(6), Ok(number));
    }
    assert_eq!(rt; calendar.add_node(6), Err(Refusal::CalendarFull));
    assert_eq!(rt; calendar.add_node(7), Err(Refusal::CalendarValue));
    for number in 1..49 {
        assert_eq!(rt;
            calendar.add_limit(Export.into(), 1, 2, [1; 12]),
            Ok(number)
        );
    }
    assert_eq!(rt;
        calendar.add_limit(Export.into(), 1, 2, [1; 12]),
        Err(Refusal::CalendarFull)
    );
}

#[test]
fn flows_count_or_stray(rt: HostRuntime) {
    for (kind, area, flow, marked) in [
        (Wheeling, 2, 99, false),
        (Wheeling, 2, 100, true),
        (Wheeling, 2, -100, false),
        (Wheeling, 1, 1, true),
        (Wheeling, 3, 1, true),
        (Export, 1, 1, true),
        (Export, 1, -1, false),
        (Export, 2, 99, false),
        (Import, 3, 1, true),
        (Import, 1, 99, false),
    ] {
        assert_eq!(rt; mark_of(kind, area, flow), Ok(marked));
    }
    let stray = Refusal::Stray { place: 1, limit: 1 };
    assert_eq!(rt; mark_of(Export, 2, 100), Err(stray));
    assert_eq!(rt; mark_of(Export, 3, 100), Err(stray));
    assert_eq!(rt; mark_of(Import, 1, 100), Err(stray));
}

// The rows of three limits after a build.
fn rows_built(
    calendar: &mut Calendar,
    references: &[Reference],
    flows: &[i32],
) -> Result<(u32, u32, u32), Refusal> {
    calendar.build_matrix(references, flows)?;
    Ok((
        calendar.relation(1)?,
        calendar.relation(2)?,
        calendar.relation(3)?,
    ))
}

#[test]
fn a_second_build_clears_old_marks(rt: HostRuntime) -> Result<(), Fail> {
    let mut calendar = Calendar::new();
    calendar.add_limit(Export.into(), 1, 1, [0; 12])?;
    calendar.add_limit(Wheeling.into(), 2, 1, [0; 12])?;
    calendar.add_limit(Import.into(), 3, 1, [0; 12])?;
    let one_three = Reference {
        injection: 1,
        withdrawal: 3,
    };
    let two_three = Reference {
        injection: 2,
        withdrawal: 3,
    };
    // pair 1-3 has the number 1, pair 2-3 the number 6
    let references = [one_three, one_three, two_three];
    let worked = rows_built(
        &mut calendar,
        &references,
        &[60, 99, 80, -40, 100, 0, 99, 5, -7],
    );
    assert_eq!(rt; worked, Ok((1 << 1, 1 << 1 | 1 << 6, 1 << 1)));
    let strayed = rows_built(
        &mut calendar,
        &references,
        &[60, 99, 80, -40, 100, 0, 100, 5, -7],
    );
    assert_eq!(rt; strayed, Err(Refusal::Stray { place: 3, limit: 1 }));
    let short = rows_built(&mut calendar, &references, &[60, 99, 80]);
    assert_eq!(rt; short, Err(Refusal::References));
    let second = rows_built(&mut calendar, &[two_three], &[99, 5, -7]);
    assert_eq!(rt; second, Ok((0, 1 << 6, 0)));
    Ok(())
}
