use crate::{calendar, table};
use calendar::{Direction, LimitKind};
use flows::FactorSource;
use std::test::Fail;

#[test]
fn nodes_and_prices(rt: HostRuntime) -> Result<(), Fail> {
    let calendar = calendar();
    assert_eq!(rt; calendar.node_count(), 3);
    for (node, area, price) in [(0, 1, 50_000), (1, 2, 60_000), (2, 3, 60_000)] {
        assert_eq!(rt; calendar.area(node)?.number(), area);
        for month in 1..=12 {
            assert_eq!(rt; calendar.price(node, month)?, price);
        }
    }
    Ok(())
}

#[test]
fn limits_and_marks(rt: HostRuntime) -> Result<(), Fail> {
    let calendar = calendar();
    assert_eq!(rt; calendar.limit_count(), 2);
    assert_eq!(rt; calendar.limit_kind(1)?, LimitKind::Export);
    assert_eq!(rt; calendar.limit_kind(2)?, LimitKind::Import);
    assert_eq!(rt; calendar.limit_direction(1)?, Direction::Southward);
    assert_eq!(rt; calendar.limit_direction(2)?, Direction::Northward);
    for (limit, value) in [(1, 300_000), (2, 200_000)] {
        assert_eq!(rt; calendar.limit_area(limit)?.number(), 1);
        assert_eq!(rt; calendar.relation(limit)?, (1 << 30) - 1);
        for month in 1..=12 {
            assert_eq!(rt; calendar.value(limit, month)?, value);
        }
    }
    Ok(())
}

#[test]
fn hours_and_pay_days(rt: HostRuntime) -> Result<(), Fail> {
    let calendar = calendar();
    for month in 1..=12 {
        assert_eq!(rt; calendar.hours(month)?, 744);
        assert_eq!(rt; calendar.pay_day(month)?, 10 * month);
    }
    Ok(())
}

#[test]
fn factors(rt: HostRuntime) -> Result<(), Fail> {
    let table = table(rt.alloc())?;
    for month in 1..=12 {
        for (limit, injection, withdrawal, factor) in [
            (1, 0, 1, 1_000_000),
            (1, 1, 0, -1_000_000),
            (1, 0, 2, 1_000_000),
            (1, 1, 2, 0),
            (2, 0, 1, -1_000_000),
            (2, 1, 0, 1_000_000),
        ] {
            assert_eq!(rt;
                table.factor(month, limit, injection, withdrawal),
                Some(factor)
            );
        }
    }
    assert_eq!(rt; table.factor(1, 3, 0, 1), None);
    assert_eq!(rt; table.factor(1, 1, 0, 3), None);
    Ok(())
}
