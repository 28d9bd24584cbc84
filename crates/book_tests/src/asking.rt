use book::{Account, Annulment, AwardNumbers, Statement};
use desk::{Answer, Call, Desk};
use flows::{FactorSource, UseRule};
use std::process::Abort;
use std::test::Fail;
use submission::{Line, write};
use terms::Refusal;

// 200,000 kW southward in month 1, at the floor. Its guarantee is 29,760,000 cents.
pub const SOUTH: Line = Line {
    holder: 0,
    injection: 0,
    withdrawal: 1,
    first: 1,
    last: 1,
    power: 200_000,
    offer: 148_800_000,
    charge: 148_800_000,
};

// 150,000 kW northward in months 1 to 3, whose floor is 0. Its guarantee is 30 cents.
pub const NORTH: Line = Line {
    holder: 1,
    injection: 1,
    withdrawal: 0,
    first: 1,
    last: 3,
    power: 150_000,
    offer: 300,
    charge: 300,
};

// What a desk answers to a call.
pub type Told = Result<Answer, Refusal>;

// A call with the answer that it should have.
pub type Step<'a> = (Call<'a>, Told);

// Puts the calls to a desk one after another, and compares its answers.
pub fn check_steps<S: FactorSource, R: UseRule>(
    rt: &impl Abort,
    desk: &mut Desk<S, R>,
    steps: &[Step<'_>],
) {
    for (call, answer) in steps {
        assert_eq!(rt; desk.answer(*call), *answer);
    }
}

// Proposes one line, and compares the answer.
pub fn check_line<S: FactorSource, R: UseRule>(
    rt: &impl Abort,
    desk: &mut Desk<S, R>,
    line: Line,
    answer: Told,
) -> Result<(), Fail> {
    let words = words::<10>(&[line])?;
    assert_eq!(rt; desk.answer(Call::Propose(&words)), answer);
    Ok(())
}

// The words of some lines: eight each, and two more.
pub fn words<const N: usize>(lines: &[Line]) -> Result<[u32; N], Refusal> {
    let mut words = [0; N];
    write(lines, &mut words)?;
    Ok(words)
}

pub const fn award(book: u32, first: u32, lines: u32) -> AwardNumbers {
    AwardNumbers { book, first, lines }
}

pub const fn confirm<'a>(book: u32, first: u32, lines: u32) -> Call<'a> {
    Call::Confirm(award(book, first, lines))
}

pub const fn strike<'a>(book: u32, first: u32, lines: u32) -> Call<'a> {
    Call::Strike(award(book, first, lines))
}

pub const fn pay<'a>(serial: u32, amount: u64) -> Call<'a> {
    Call::Pay { serial, amount }
}

pub const fn annul<'a>(serial: u32) -> Call<'a> {
    Call::Annul { serial }
}

pub const fn deposit<'a>(holder: u32, amount: u64) -> Call<'a> {
    Call::Deposit { holder, amount }
}

pub const fn withdraw<'a>(holder: u32, amount: u64) -> Call<'a> {
    Call::Withdraw { holder, amount }
}

pub const fn set_day<'a>(day: u32) -> Call<'a> {
    Call::SetDay { day }
}

pub const CONFIRMED: Told = Ok(Answer::Confirmed);

pub const STRUCK: Told = Ok(Answer::Struck);

pub const fn awarded(book: u32, first: u32, lines: u32) -> Told {
    Ok(Answer::Awarded(award(book, first, lines)))
}

pub const fn debt_left(debt: u64) -> Told {
    Ok(Answer::DebtLeft(debt))
}

pub const fn annulled(taking: u64, write_off: u64) -> Told {
    Ok(Answer::Annulled(Annulment { taking, write_off }))
}

pub const fn balance(balance: u64) -> Told {
    Ok(Answer::Balance(balance))
}

pub const fn day(day: u32) -> Told {
    Ok(Answer::Day(day))
}

pub const fn passed(month: u32, limit: u32, excess: u64) -> Told {
    Err(Refusal::LimitPassed {
        month,
        limit,
        excess,
    })
}

pub const fn uncovered(place: usize) -> Told {
    Err(Refusal::Uncovered { place })
}

pub const UNKNOWN: Told = Err(Refusal::Unknown);

pub const BAD_AMOUNT: Told = Err(Refusal::BadAmount);

pub const NO_AWARD: Told = Err(Refusal::NoSuchAward);

pub const AWARD_OPEN: Told = Err(Refusal::AwardOpen);

pub const NO_ROOM: Told = Err(Refusal::NoRoom);

pub const NOT_OVERDUE: Told = Err(Refusal::NotOverdue);

pub const DAY_PAST: Told = Err(Refusal::DayPast);

pub const fn statement(
    charge: u64,
    paid: u64,
    debt: u64,
    guarantee: u64,
) -> Result<Statement, Refusal> {
    Ok(Statement {
        charge,
        paid,
        debt,
        guarantee,
    })
}

pub const fn account(balance: u64, free: u64) -> Result<Account, Refusal> {
    Ok(Account { balance, free })
}
