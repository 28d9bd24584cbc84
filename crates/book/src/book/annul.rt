ghost use Rattle.std.specs.Prelude.{◌≡◌};
ghost use Rattle.book.specs.Market.{market_of};
ghost use Rattle.book.specs.Checks.{overdue_on};
ghost use Rattle.book.specs.Calls.{annul as annulling};
ghost use Rattle.book.specs.Results.{Gives, Untouched, annulled};
ghost use Rattle.book.specs.Views.{view};

use super::Book;
use crate::answers::Annulment;
use crate::right::Right;
use flows::{FactorSource, UseRule};
use money::{Dues, MonthSpan};
use terms::Refusal;

impl<S: FactorSource, R: UseRule> Book<S, R> {
    // Whether a right lacks an instalment whose pay day is past.
    fn is_overdue(&self, right: &Right) -> bool
        ensures { result ≡ overdue_on (market_of S.FactorSource R.UseRule self.now.basis) (view self.now.ledger).day right.now }
    {
        let Some(months) = MonthSpan::new(right.line.first, right.line.last) else {
            return false;
        };
        let dues = Dues {
            months,
            charge: right.line.charge,
            paid: right.paid(),
        };
        dues.overdue(&self.basis.calendar, self.ledger.day)
    }

    // Removes a right that is overdue: takes its guarantee up to the debt, and writes off the rest.
    pub(super) fn remove_overdue(&mut self, serial: u32) -> Result<Annulment, Refusal>
        ensures fixed { self.new.basis ≡ self.old.basis }
        ensures gives { Gives annulled (annulling (market_of S.FactorSource R.UseRule self.old.basis) (view self.old.ledger) serial) result (view self.new.ledger) }
        ensures kept { Untouched result self.old.ledger self.new.ledger }
    {
        let (at, right) = self.ledger.rights.in_force_at(serial)?;
        if self.ledger.pending.is_some() {
            return Err(Refusal::AwardOpen);
        }
        if !self.is_overdue(&right) {
            return Err(Refusal::NotOverdue);
        }
        let mut remaining = self.ledger.rights;
        remaining.remove(at);
        self.basis.check_capacity(&remaining)?;
        let taking = right.taking();
        self.ledger
            .close_account(remaining, right.line.holder, taking);
        Ok(Annulment {
            taking,
            write_off: right.debt() - taking,
        })
    }
}
