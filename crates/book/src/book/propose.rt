ghost use Rattle.std.specs.Prelude.{◌≡◌};
ghost use Rattle.book.specs.Market.{market_of};
ghost use Rattle.book.specs.Calls.{propose as proposing};
ghost use Rattle.book.specs.Results.{Gives, Untouched, awarded};
ghost use Rattle.book.specs.Views.{view};

use super::Book;
use super::lines::enter;
use crate::award::AwardNumbers;
use crate::ledger::Pending;
use flows::{FactorSource, UseRule};
use submission::Reader;
use terms::Refusal;

impl<S: FactorSource, R: UseRule> Book<S, R> {
    // Enters the lines of a submission as provisional rights, and answers the numbers of their award.
    pub(super) fn offer(&mut self, words: &[u32]) -> Result<AwardNumbers, Refusal>
        ensures fixed { self.new.basis ≡ self.old.basis }
        ensures gives { Gives awarded (proposing (market_of S.FactorSource R.UseRule self.old.basis) (view self.old.ledger) words.now) result (view self.new.ledger) }
        ensures kept { Untouched result self.old.ledger self.new.ledger }
    {
        let reader = Reader::open(words)?;
        if self.ledger.pending.is_some() {
            return Err(Refusal::AwardOpen);
        }
        self.check_lines(reader)?;
        let lines = reader.lines_left();
        self.ledger.check_room(lines)?;
        let mut after = self.ledger.rights;
        enter(&mut after, reader, self.ledger.next);
        self.basis.check_capacity(&after)?;
        let award = AwardNumbers {
            book: self.ledger.number,
            first: self.ledger.next,
            lines: lines as u32,
        };
        self.ledger.open_award(after, award);
        Ok(award)
    }
}
