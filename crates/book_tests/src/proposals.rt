use crate::asking::*;
use demonstration::{calendar, table};
use desk::{Answer, Call, Desk};
use flows::{FactorSource, FirmRule, PairList, PairRow, UseRule};
use std::process::Abort;
use std::test::Fail;
use submission::Line;
use terms::Refusal;

const BELOW_FLOOR: Told = Err(Refusal::BelowFloor { place: 1 });

const fn bad_line(place: usize) -> Told {
    Err(Refusal::BadLine { place })
}

const fn broken(place: usize) -> Told {
    Err(Refusal::Form { place })
}

const fn no_factor(place: usize, month: u32, limit: u32) -> Told {
    Err(Refusal::NoFactor {
        place,
        month,
        limit,
    })
}

// Each reason for which a line is bad, and then offers below the floor.
fn bad_lines<S: FactorSource, R: UseRule>(
    rt: &impl Abort,
    desk: &mut Desk<S, R>,
) -> Result<(), Fail> {
    let lines = [
        Line {
            holder: 32,
            ..SOUTH
        },
        Line {
            injection: 4,
            ..SOUTH
        },
        Line {
            withdrawal: 4,
            ..SOUTH
        },
        Line {
            withdrawal: 3,
            ..SOUTH
        },
        Line { first: 0, ..SOUTH },
        Line { first: 2, ..SOUTH },
        Line { last: 13, ..SOUTH },
        Line { power: 0, ..SOUTH },
        Line {
            power: 1_000_001,
            ..NORTH
        },
        Line {
            offer: 2_000_000_000_001,
            ..SOUTH
        },
        Line {
            charge: 148_800_001,
            ..SOUTH
        },
    ];
    for line in lines {
        check_line(rt, desk, line, bad_line(1))?;
    }
    let below = Line {
        offer: 148_799_999,
        charge: 0,
        ..SOUTH
    };
    check_line(rt, desk, below, BELOW_FLOOR)?;
    check_line(rt, desk, Line { last: 2, ..SOUTH }, BELOW_FLOOR)
}

// The first word of a submission of one line, alone.
const OPENING: [u32; 1] = [0x1000_0001];

// A broken form, the order of the checks, and the cover of one line and of two.
fn forms_and_covers<'a, S: FactorSource, R: UseRule>(
    rt: &impl Abort,
    desk: &mut Desk<S, R>,
    south: &'a [u32],
    short: &'a [u32],
    halves: &'a [u32],
    second_bad: &'a [u32],
) -> Result<(), Fail> {
    check_steps(
        rt,
        desk,
        &[
            (Call::Propose(short), broken(2)),
            (Call::Propose(south), uncovered(1)),
            (deposit(0, 29_759_999), balance(29_759_999)),
            (Call::Propose(south), uncovered(1)),
            (Call::Propose(halves), uncovered(2)),
            (Call::Propose(second_bad), uncovered(1)),
            (deposit(0, 1), balance(29_760_000)),
            (Call::Propose(second_bad), bad_line(2)),
            (Call::Propose(halves), awarded(1, 1, 2)),
            (Call::Propose(second_bad), AWARD_OPEN),
            (Call::Propose(short), broken(2)),
            (strike(1, 1, 2), STRUCK),
            (Call::Propose(south), awarded(1, 3, 1)),
        ],
    );
    Ok(())
}

// With a second node of area 1, node 3.
#[test]
fn lines(rt: HostRuntime) -> Result<(), Fail> {
    let mut calendar = calendar();
    calendar.add_node(1)?;
    let mut desk = Desk::new(1, table(rt.alloc())?, FirmRule, calendar);
    let seen = bad_lines(&rt, &mut desk);
    let _ = desk.close();
    seen
}

#[test]
fn forms(rt: HostRuntime) -> Result<(), Fail> {
    let half = Line {
        power: 100_000,
        offer: 74_400_000,
        charge: 0,
        ..SOUTH
    };
    let south = words::<10>(&[SOUTH])?;
    let halves = words::<18>(&[half, half])?;
    let second_bad = words::<18>(&[SOUTH, Line { power: 0, ..SOUTH }])?;
    let mut desk = Desk::new(1, table(rt.alloc())?, FirmRule, calendar());
    let seen = forms_and_covers(&rt, &mut desk, &south, &OPENING, &halves, &second_bad);
    let _ = desk.close();
    seen
}

const fn row(month: u32, limit: u32) -> PairRow {
    PairRow {
        month,
        limit,
        injection: 0,
        withdrawal: 1,
        factor: 1_000_000,
    }
}

const TWO_MONTHS: Line = Line {
    last: 2,
    offer: 297_600_000,
    ..SOUTH
};

// The first factor that is missing, by month and then limit; after the floor and before the cover.
fn missing<S: FactorSource, R: UseRule>(
    rt: &impl Abort,
    desk: &mut Desk<S, R>,
) -> Result<(), Fail> {
    let second = Line {
        first: 2,
        last: 2,
        ..SOUTH
    };
    check_line(rt, desk, TWO_MONTHS, no_factor(1, 1, 2))?;
    check_line(rt, desk, second, no_factor(1, 2, 1))?;
    check_line(rt, desk, NORTH, no_factor(1, 1, 1))?;
    check_line(
        rt,
        desk,
        Line {
            offer: 1,
            charge: 0,
            ..second
        },
        BELOW_FLOOR,
    )
}

// Of a limit without marks no factor is asked.
#[test]
fn factors(rt: HostRuntime) -> Result<(), Fail> {
    let source = PairList::from([row(1, 1), row(2, 2)].to_vec(rt.alloc())?);
    let mut desk = Desk::new(1, source, FirmRule, calendar());
    let seen = missing(&rt, &mut desk);
    let _ = desk.close();
    seen?;
    let mut calendar = calendar();
    calendar.set_relation(2, 0)?;
    let source = PairList::from([row(1, 1), row(2, 2)].to_vec(rt.alloc())?);
    let mut desk = Desk::new(1, source, FirmRule, calendar);
    let seen = check_line(&rt, &mut desk, TWO_MONTHS, no_factor(1, 2, 1));
    let _ = desk.close();
    seen
}

// One kilowatt northward, which costs nothing.
const LEAST: Line = Line {
    power: 1,
    offer: 0,
    charge: 0,
    ..NORTH
};

// Sixteen rights at a time fill the rows. A row that is left is used again, and a serial is not.
fn rows<'a, S: FactorSource, R: UseRule>(
    rt: &impl Abort,
    desk: &mut Desk<S, R>,
    many: &'a [u32],
    more: &'a [u32],
) -> Result<(), Fail> {
    check_steps(
        rt,
        desk,
        &[
            (Call::Propose(many), awarded(1, 1, 16)),
            (confirm(1, 1, 16), CONFIRMED),
            (Call::Propose(more), passed(1, 2, 16_000_000)),
            (Call::Propose(many), awarded(1, 17, 16)),
            (confirm(1, 17, 16), CONFIRMED),
            (Call::Propose(many), awarded(1, 33, 16)),
            (confirm(1, 33, 16), CONFIRMED),
            (Call::Propose(many), awarded(1, 49, 16)),
            (confirm(1, 49, 16), CONFIRMED),
            (Call::Propose(many), awarded(1, 65, 16)),
            (confirm(1, 65, 16), CONFIRMED),
            (Call::Propose(many), awarded(1, 81, 16)),
            (strike(1, 81, 16), STRUCK),
            (Call::Propose(many), awarded(1, 97, 16)),
            (confirm(1, 97, 16), CONFIRMED),
            (Call::Propose(more), NO_ROOM),
        ],
    );
    Ok(())
}

// Proposes and strikes until the last serial is used.
fn serials<S: FactorSource, R: UseRule>(
    rt: &impl Abort,
    desk: &mut Desk<S, R>,
    many: &[u32],
) -> Result<(), Fail> {
    for _ in 0..62_500 {
        let Ok(Answer::Awarded(award)) = desk.answer(Call::Propose(many)) else {
            return Err(Fail::new("the proposal is refused"));
        };
        assert_eq!(rt; desk.answer(Call::Strike(award)), STRUCK);
    }
    check_line(rt, desk, LEAST, NO_ROOM)
}

#[test]
fn room(rt: HostRuntime) -> Result<(), Fail> {
    let many = words::<130>(&[LEAST; 16])?;
    let more = words::<10>(&[Line {
        power: 200_000,
        ..LEAST
    }])?;
    let mut desk = Desk::new(1, table(rt.alloc())?, FirmRule, calendar());
    let seen = rows(&rt, &mut desk, &many, &more);
    let _ = desk.close();
    seen?;
    let mut desk = Desk::new(1, table(rt.alloc())?, FirmRule, calendar());
    let seen = serials(&rt, &mut desk, &many);
    let _ = desk.close();
    seen
}
