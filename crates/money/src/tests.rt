use crate::{Dues, MonthSpan, Transfer, guarantee};
use calendar::Calendar;
use std::test::Fail;
use terms::Refusal;

fn months(first: u32, last: u32) -> Result<MonthSpan, Refusal> {
    MonthSpan::new(first, last).ok_or(Refusal::Unknown)
}

#[test]
fn spans(rt: HostRuntime) {
    // first, last, whether they are months of the year in order
    let cases = [
        (1, 12, true),
        (12, 12, true),
        (0, 1, false),
        (3, 2, false),
        (12, 13, false),
    ];
    for (first, last, stands) in cases {
        assert_eq!(rt; MonthSpan::new(first, last).is_some(), stands);
    }
}

#[test]
fn guarantees(rt: HostRuntime) {
    // last month, offer, guarantee
    let cases = [
        (1, 101, 21),
        (3, 101, 11),
        (1, 100, 20),
        (12, 100, 10),
        (12, 0, 0),
        (1, 2_000_000_000_000, 400_000_000_000),
    ];
    for (last, offer, least) in cases {
        assert_eq!(rt; guarantee(offer, 1, last), least);
    }
}

#[test]
fn instalments(rt: HostRuntime) -> Result<(), Fail> {
    // last month, charge, paid, debt, then amounts and what they lack
    let cases = [
        (3, 100, 0, 100, [34, 33, 33], [34, 33, 33]),
        (3, 100, 34, 66, [34, 33, 33], [0, 33, 33]),
        (3, 100, 50, 50, [34, 33, 33], [0, 17, 33]),
        (3, 100, 100, 0, [34, 33, 33], [0, 0, 0]),
        (3, 100, 101, 0, [34, 33, 33], [0, 0, 0]),
        (3, 0, 0, 0, [0, 0, 0], [0, 0, 0]),
        (12, 26, 0, 26, [3, 3, 2], [3, 3, 2]),
    ];
    for (last, charge, paid, debt, amounts, lacks) in cases {
        let months = months(1, last)?;
        let dues = Dues {
            months,
            charge,
            paid,
        };
        assert_eq!(rt; dues.debt(), debt);
        assert!(rt; dues.instalment(last + 1).is_none());
        for (month, (amount, lacking)) in (1..4).zip(amounts.iter().zip(&lacks)) {
            let instalment = dues.instalment(month).ok_or(Refusal::Unknown)?;
            assert_eq!(rt; instalment.amount, *amount);
            assert_eq!(rt; instalment.lacking, *lacking);
        }
    }
    Ok(())
}

// Nodes 0 and 1 at 50,000 and 60,000 in every month but month 2, where the prices are exchanged.
fn priced() -> Result<Calendar, Refusal> {
    let mut calendar = Calendar::new();
    let low = calendar.add_node(1)?;
    let high = calendar.add_node(2)?;
    for month in 1..13 {
        let (first, second) = if month == 2 {
            (60_000, 50_000)
        } else {
            (50_000, 60_000)
        };
        calendar.set_price(low, month, first)?;
        calendar.set_price(high, month, second)?;
        calendar.set_hours(month, 744)?;
        calendar.set_pay_day(month, 10 * month)?;
    }
    Ok(calendar)
}

#[test]
fn floors(rt: HostRuntime) -> Result<(), Fail> {
    let calendar = priced()?;
    // injection, withdrawal, first and last month, offer, whether it reaches the floor
    let cases = [
        (0, 1, 1, 1, 148_800_000, true),
        (0, 1, 1, 1, 148_799_999, false),
        (1, 0, 1, 1, 0, true),
        (0, 1, 1, 2, 0, true),
        (0, 1, 1, 3, 148_800_000, true),
        (0, 1, 1, 3, 148_799_999, false),
        (0, 1, 1, 12, 1_488_000_000, true),
        (0, 1, 1, 12, 1_487_999_999, false),
    ];
    for (injection, withdrawal, first, last, offer, reaches) in cases {
        let transfer = Transfer {
            injection,
            withdrawal,
            power: 200_000,
            months: months(first, last)?,
        };
        assert_eq!(rt; transfer.reached_by(&calendar, offer)?, reaches);
    }
    Ok(())
}

#[test]
fn overdue(rt: HostRuntime) -> Result<(), Fail> {
    let calendar = priced()?;
    // paid of 100 cents over months 1 to 3, day, whether overdue
    let cases = [
        (0, 10, false),
        (0, 11, true),
        (34, 20, false),
        (34, 21, true),
        (33, 20, true),
        (99, 30, false),
        (99, 31, true),
        (100, 1_000_000, false),
    ];
    for (paid, day, late) in cases {
        let dues = Dues {
            months: months(1, 3)?,
            charge: 100,
            paid,
        };
        assert_eq!(rt; dues.overdue(&calendar, day), late);
    }
    Ok(())
}
