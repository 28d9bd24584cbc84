ghost use Rattle.std.specs.Prelude.{◌≡◌, length};

use crate::award::AwardNumbers;
use crate::rights::Rights;
use terms::HOLDERS;

// The award that is open: its first serial, and how many lines it has.
// No AwardNumbers: the book's number stands once, in the ledger.
#[derive(Clone, Copy)]
pub struct Pending {
    pub first: u32,
    pub lines: u32,
}

impl Pending {
    // The numbers of the award, in a book.
    pub(crate) fn numbers(self, book: u32) -> AwardNumbers
        ensures { result ≡ record { book = book; first = self.first; lines = self.lines } }
    {
        AwardNumbers {
            book,
            first: self.first,
            lines: self.lines,
        }
    }
}

// The plain tables of a book: its number and day, the next serial, the open award, the rights and the holders' balances in cents.
#[derive(Clone, Copy)]
pub struct Ledger {
    pub number: u32,
    pub day: u32,
    pub next: u32,
    pub pending: Option<Pending>,
    pub rights: Rights,
    pub balances: [u64; HOLDERS],
    ghost holders: { length balances ≡ 32 },
}

mod calls;
pub(crate) mod covers;
mod questions;
