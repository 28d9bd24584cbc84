// A desk: a book with the award in hand, to which calls are put one after another.
ghost use Rattle.std.specs.Prelude.{T};
ghost use Rattle.desk.specs.Hands.{in_hand};
ghost use Rattle.book.specs.Views.{view};

use book::{Annulment, Award, AwardNumbers, Book};
use flows::{FactorSource, UseRule};

mod calls;
mod hand;

pub use calls::run;

// A call on a book. A submission's words are lent; an award is presented by its three numbers.
#[derive(Clone, Copy)]
pub enum Call<'a> {
    Propose(&'a [u32]),
    Confirm(AwardNumbers),
    Strike(AwardNumbers),
    Pay { serial: u32, amount: u64 },
    Annul { serial: u32 },
    Deposit { holder: u32, amount: u64 },
    Withdraw { holder: u32, amount: u64 },
    SetDay { day: u32 },
}

// What a book answers to a call that it grants.
#[derive(Clone, Copy, Debug, PartialEq, Eq)]
pub enum Answer {
    Awarded(AwardNumbers),
    Confirmed,
    Struck,
    DebtLeft(u64),
    Annulled(Annulment),
    Balance(u64),
    Day(u32),
}

// A book and the award that is open in it, if one is.
#[derive(Drop)]
pub struct Desk<S: FactorSource, R: UseRule> {
    book: Book<S, R>,
    hand: Option<Award>,
    ghost held: { T (in_hand hand (view book.ledger)) },
}

// A desk after a list of calls, and how many of them were made.
#[derive(Drop)]
pub struct Outcome<S: FactorSource, R: UseRule> {
    pub desk: Desk<S, R>,
    pub made: usize,
}
