ghost use Rattle.std.specs.Prelude.{◌≡◌, ℕ, ◌≤◌, List, [], ◌++◌, length, IfOk};
ghost use Rattle.book.specs.Market.{market_of};
ghost use Rattle.book.specs.Calls.{propose as proposing};
ghost use Rattle.book.specs.Views.{view};
ghost use Rattle.demonstration.specs.Runs.{firm, after};
ghost use Rattle.demonstration.specs.Answers.{firm_over, reported, Replies, Answered};

use super::Fault;
use crate::{calendar, table};
use book::Book;
use flows::{FactorSource, FirmRule, NodeTable, UseRule};
use report::{Accepted, read_submission, write_line};
use std::alloc::{AllocError, Global};
use terms::Refusal;

// The book that the program opens, and the cents that holder 0 has in it.
const BOOK: u32 = 1;

const DEPOSIT: u64 = 1_000_000_000;

// Firm book 1 over the worked calendar and table, with the deposit of holder 0.
pub fn firm_book(heap: Global) -> Result<Book<NodeTable, FirmRule>, AllocError>
    ensures market { IfOk result (λ b. firm_over b.basis.source b.basis.calendar ≡ firm) }
    ensures state { IfOk result (λ b. view b.ledger ≡ after firm []) }
{
    let mut book = Book::new(BOOK, table(heap)?, FirmRule, calendar());
    let _ = book.deposit(0, DEPOSIT);
    Ok(book)
}

// Proposes the words of a submission, strikes the award that comes, and gives the reply to report.
fn propose_and_strike<S: FactorSource, R: UseRule>(
    book: &mut Book<S, R>,
    words: &[u32],
) -> Result<Accepted, Refusal>
    ensures { reported (view book.old.ledger).number result ≡ (proposing (market_of S.FactorSource R.UseRule book.old.basis) (view book.old.ledger) words.now).answer }
{
    let award = book.propose(words)?;
    let numbers = award.numbers();
    let Ok(()) = book.strike(award) else {
        unreachable()
    };
    Ok(Accepted {
        first: numbers.first,
        lines: numbers.lines,
    })
}

// The reply of the worked firm book to the bytes of an input.
fn reply_to(book: &mut Book<NodeTable, FirmRule>, bytes: &[u8]) -> Result<Accepted, Refusal>
    requires market { firm_over book.old.basis.source book.old.basis.calendar ≡ firm }
    requires state { view book.old.ledger ≡ after firm [] }
    ensures replies { Replies bytes.now result }
    ensures decided { (rest : List ℕ) → 521 ≤ length bytes.now → Replies (bytes.now ++ rest) result }
{
    let input = read_submission(bytes)?;
    propose_and_strike(book, input.as_slice())
}

// Judges the bytes of an input as a proposal to firm book 1, and writes the line of the reply at the front of `out`;
// answers how many bytes that is. Of a longer input the first 521 bytes are enough.
pub fn answer(heap: Global, bytes: &[u8], out: &mut [u8]) -> Result<usize, Fault>
    ensures answered { Answered bytes.now out.old out.new result }
    ensures within { IfOk result (λ n. n ≤ length out.new) }
{
    let mut book = firm_book(heap)?;
    let reply = reply_to(&mut book, bytes);
    write_line(reply, out).map_err(|_| Fault::ShortBuffer)
}
