use crate::asking::*;
use demonstration::{calendar, table};
use desk::{Call, Desk};
use flows::{FactorSource, FirmRule, UseRule};
use std::process::Abort;
use std::test::Fail;
use submission::Line;
use terms::Refusal;

// Every refusal of the calls other than propose, each beside the nearest call that is granted.
fn refusals<'a, S: FactorSource, R: UseRule>(
    rt: &impl Abort,
    desk: &mut Desk<S, R>,
    both: &'a [u32],
    free: &'a [u32],
) -> Result<(), Fail> {
    check_steps(
        rt,
        desk,
        &[
            (deposit(32, 0), UNKNOWN),
            (deposit(31, 0), BAD_AMOUNT),
            (
                deposit(31, 1_000_000_000_000_000),
                balance(1_000_000_000_000_000),
            ),
            (deposit(31, 1), BAD_AMOUNT),
            (withdraw(32, 0), UNKNOWN),
            (withdraw(31, 0), BAD_AMOUNT),
            (withdraw(31, 1_000_000_000_000_001), BAD_AMOUNT),
            (withdraw(31, 1_000_000_000_000_000), balance(0)),
            (deposit(0, 29_760_001), balance(29_760_001)),
            (deposit(1, 30), balance(30)),
            (confirm(1, 1, 2), NO_AWARD),
            (strike(1, 1, 2), NO_AWARD),
            (Call::Propose(both), awarded(1, 1, 2)),
            (confirm(2, 1, 2), NO_AWARD),
            (confirm(1, 2, 2), NO_AWARD),
            (confirm(1, 1, 1), NO_AWARD),
            (strike(2, 1, 2), NO_AWARD),
            (strike(1, 2, 2), NO_AWARD),
            (strike(1, 1, 1), NO_AWARD),
            (pay(1, 1), UNKNOWN),
            (annul(1), UNKNOWN),
            (withdraw(0, 2), BAD_AMOUNT),
            (withdraw(0, 1), balance(29_760_000)),
            (confirm(1, 1, 2), CONFIRMED),
            (pay(3, 1), UNKNOWN),
            (pay(1, 0), BAD_AMOUNT),
            (pay(1, 148_800_001), BAD_AMOUNT),
            (pay(1, 148_799_999), debt_left(1)),
            (withdraw(0, 1), BAD_AMOUNT),
            (annul(3), UNKNOWN),
            (annul(1), NOT_OVERDUE),
            (set_day(11), day(11)),
            (set_day(11), day(11)),
            (set_day(10), DAY_PAST),
            (Call::Propose(free), passed(1, 2, 100_000_000_000)),
            (annul(1), annulled(1, 0)),
            (deposit(0, 1), balance(29_760_000)),
            (annul(2), annulled(30, 270)),
            (Call::Propose(free), awarded(1, 3, 1)),
            (confirm(1, 3, 1), CONFIRMED),
            (annul(3), NOT_OVERDUE),
        ],
    );
    Ok(())
}

#[test]
fn every_refusal(rt: HostRuntime) -> Result<(), Fail> {
    let both = words::<18>(&[SOUTH, NORTH])?;
    let free = words::<10>(&[Line {
        offer: 0,
        charge: 0,
        ..NORTH
    }])?;
    let mut desk = Desk::new(1, table(rt.alloc())?, FirmRule, calendar());
    let seen = refusals(&rt, &mut desk, &both, &free);
    let book = desk.close();
    seen?;
    assert_eq!(rt; book.statement(1), Err(Refusal::Unknown));
    assert_eq!(rt; book.statement(3), statement(0, 0, 0, 0));
    assert_eq!(rt; book.account(0), account(29_760_000, 29_760_000));
    assert_eq!(rt; book.account(1), account(0, 0));
    assert_eq!(rt; book.account(32), Err(Refusal::Unknown));
    for (month, limit) in [(0, 1), (13, 1), (1, 0), (1, 3)] {
        assert_eq!(rt; book.load(month, limit), Err(Refusal::Unknown));
    }
    assert_eq!(rt; book.load(12, 2)?, 0);
    Ok(())
}
