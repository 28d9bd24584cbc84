use crate::asking::*;
use demonstration::{calendar, table};
use desk::{Call, Desk};
use flows::{FactorSource, FirmRule, ObligationRule, UseRule};
use std::process::Abort;
use std::test::Fail;
use submission::Line;

// 450,000 kW southward, to go beside 150,000 kW northward.
const LARGE: Line = Line {
    power: 450_000,
    offer: 334_800_000,
    charge: 0,
    ..SOUTH
};

fn both_ways<S: FactorSource, R: UseRule>(
    rt: &impl Abort,
    desk: &mut Desk<S, R>,
    words: &[u32],
    answer: Told,
) -> Result<(), Fail> {
    check_steps(
        rt,
        desk,
        &[
            (deposit(0, 66_960_000), balance(66_960_000)),
            (deposit(1, 30), balance(30)),
            (Call::Propose(words), answer),
        ],
    );
    Ok(())
}

// Under the obligation rule the northward right cannot be annulled from beside the southward one.
fn obligations<S: FactorSource, R: UseRule>(
    rt: &impl Abort,
    desk: &mut Desk<S, R>,
    words: &[u32],
) -> Result<(), Fail> {
    both_ways(rt, desk, words, awarded(1, 1, 2))?;
    assert_eq!(rt; desk.book().load(1, 1)?, 300_000_000_000);
    assert_eq!(rt; desk.book().load(1, 2)?, -300_000_000_000);
    assert_eq!(rt; desk.book().load(2, 1)?, -150_000_000_000);
    check_steps(
        rt,
        desk,
        &[
            (Call::Propose(words), AWARD_OPEN),
            (confirm(1, 1, 2), CONFIRMED),
            (set_day(11), day(11)),
            (annul(2), passed(1, 1, 150_000_000_000)),
            (pay(2, 300), debt_left(0)),
            (annul(2), NOT_OVERDUE),
        ],
    );
    Ok(())
}

// A firm right northward takes nothing off the load southward; one that has to be used does.
#[test]
fn netting(rt: HostRuntime) -> Result<(), Fail> {
    let words = words::<18>(&[LARGE, NORTH])?;
    let mut firm = Desk::new(1, table(rt.alloc())?, FirmRule, calendar());
    let seen = both_ways(&rt, &mut firm, &words, passed(1, 1, 150_000_000_000));
    let _ = firm.close();
    seen?;
    let mut obligation = Desk::new(1, table(rt.alloc())?, ObligationRule, calendar());
    let seen = obligations(&rt, &mut obligation, &words);
    let _ = obligation.close();
    seen
}
