use crate::asking::*;
use demonstration::{calendar, table};
use desk::{Call, Outcome, run};
use flows::FirmRule;
use std::test::Fail;
use submission::Line;
use terms::Refusal;

// 100,000 kW and 100,001 kW southward, each at the floor.
const MOST: Line = Line {
    power: 100_000,
    offer: 74_400_000,
    charge: 0,
    ..SOUTH
};

const OVER: Line = Line {
    power: 100_001,
    offer: 74_400_744,
    charge: 0,
    ..SOUTH
};

// Sales, payments, a strike and an annulment on book 7, with refusals between them. The last award is left open.
fn sales<'a>(both: &'a [u32], most: &'a [u32], over: &'a [u32]) -> [Step<'a>; 33] {
    [
        (deposit(0, 100_000_000), balance(100_000_000)),
        (Call::Propose(both), uncovered(2)),
        (deposit(1, 30), balance(30)),
        (Call::Propose(both), awarded(7, 1, 2)),
        (Call::Propose(both), AWARD_OPEN),
        (pay(1, 1), UNKNOWN),
        (withdraw(0, 70_240_001), BAD_AMOUNT),
        (withdraw(0, 70_240_000), balance(29_760_000)),
        (confirm(7, 1, 3), NO_AWARD),
        (confirm(7, 1, 2), CONFIRMED),
        (confirm(7, 1, 2), NO_AWARD),
        (Call::Propose(over), uncovered(1)),
        (deposit(0, 14_880_149), balance(44_640_149)),
        (Call::Propose(over), passed(1, 1, 1_000_000)),
        (Call::Propose(most), awarded(7, 3, 1)),
        (strike(7, 3, 1), STRUCK),
        (pay(3, 1), UNKNOWN),
        (pay(1, 100_000_000), debt_left(48_800_000)),
        (withdraw(0, 44_640_149), BAD_AMOUNT),
        (pay(1, 48_800_000), debt_left(0)),
        (withdraw(0, 44_640_149), balance(0)),
        (set_day(10), day(10)),
        (annul(2), NOT_OVERDUE),
        (set_day(11), day(11)),
        (set_day(10), DAY_PAST),
        (annul(1), NOT_OVERDUE),
        (pay(2, 50), debt_left(250)),
        (annul(2), annulled(30, 220)),
        (annul(2), UNKNOWN),
        (deposit(1, 5), balance(5)),
        (deposit(0, 14_880_000), balance(14_880_000)),
        (Call::Propose(most), awarded(7, 4, 1)),
        (annul(1), AWARD_OPEN),
    ]
}

#[test]
fn a_long_run(rt: HostRuntime) -> Result<(), Fail> {
    let (both, most, over) = (
        words::<18>(&[SOUTH, NORTH])?,
        words::<10>(&[MOST])?,
        words::<10>(&[OVER])?,
    );
    let steps = sales(&both, &most, &over);
    let calls = steps.map(|(call, _)| call);
    let mut answers = [day(99); 34];
    let outcome = run(
        7,
        table(rt.alloc())?,
        FirmRule,
        calendar(),
        &calls,
        &mut answers,
    );
    let Outcome { desk, made } = outcome;
    let open = (desk.book().statement(4), desk.book().account(0));
    let book = desk.close();
    assert_eq!(rt; made, 33);
    for (answer, (_, expected)) in answers.iter().zip(&steps) {
        assert_eq!(rt; *answer, *expected);
    }
    assert_eq!(rt; answers[33], day(99));
    assert_eq!(rt; open.0, statement(0, 0, 0, 14_880_000));
    assert_eq!(rt; open.1, account(14_880_000, 0));
    assert_eq!(rt; book.statement(4), Err(Refusal::Unknown));
    assert_eq!(rt; book.account(0), account(14_880_000, 14_880_000));
    assert_eq!(rt;
        book.statement(1),
        statement(148_800_000, 148_800_000, 0, 0)
    );
    assert_eq!(rt; book.load(1, 1)?, 200_000_000_000);
    assert_eq!(rt; book.load(1, 2)?, 0);
    Ok(())
}

// With room for two answers, two calls are made.
#[test]
fn a_short_buffer(rt: HostRuntime) -> Result<(), Fail> {
    let words = words::<10>(&[SOUTH])?;
    let calls = [deposit(0, 5), Call::Propose(&words), deposit(0, 6)];
    let mut answers = [day(99); 2];
    let outcome = run(
        7,
        table(rt.alloc())?,
        FirmRule,
        calendar(),
        &calls,
        &mut answers,
    );
    let Outcome { desk, made } = outcome;
    let book = desk.close();
    assert_eq!(rt; made, 2);
    assert_eq!(rt; answers, [balance(5), uncovered(1)]);
    assert_eq!(rt; book.account(0), account(5, 5));
    Ok(())
}
