ghost use Rattle.std.specs.Prelude.{◌≡◌};
ghost use Rattle.book.specs.Market.{market_of};
ghost use Rattle.book.specs.Questions.{statement as statement_answer, account as account_answer, load_asked};
ghost use Rattle.book.specs.Views.{view};

use super::Book;
use crate::answers::{Account, Statement};
use flows::{FactorSource, UseRule};
use terms::{MONTHS, Refusal};

impl<S: FactorSource, R: UseRule> Book<S, R> {
    // What is charged on the right with a serial, paid, left to pay and held as its guarantee.
    pub fn statement(&self, serial: u32) -> Result<Statement, Refusal>
        ensures { result ≡ statement_answer (view self.now.ledger) serial }
    {
        self.ledger.statement(serial)
    }

    // A holder's balance and free part.
    pub fn account(&self, holder: u32) -> Result<Account, Refusal>
        ensures { result ≡ account_answer (view self.now.ledger) holder }
    {
        self.ledger.account(holder)
    }

    // The load of a limit in a month, by all rights in the book, in millionths of a kilowatt.
    pub fn load(&self, month: u32, limit: u32) -> Result<i64, Refusal>
        ensures { result ≡ load_asked (market_of S.FactorSource R.UseRule self.now.basis) (view self.now.ledger) month limit }
    {
        let limits = 1..=self.basis.calendar.limit_count();
        if !(1..=MONTHS).contains(&month) || !limits.contains(&limit) {
            return Err(Refusal::Unknown);
        }
        Ok(self.basis.load_of(month, limit, &self.ledger.rights))
    }
}
