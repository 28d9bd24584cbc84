ghost use Rattle.std.specs.Prelude.{◌≡◌, List, ◌∷◌, OnOk};
ghost use Rattle.submission.specs.declared.line.Line.{Line as Entry};
ghost use Rattle.book.specs.Market.{market_of};
ghost use Rattle.book.specs.States.{State};
ghost use Rattle.book.specs.Covers.{Left};
ghost use Rattle.book.specs.Refusing.{told};
ghost use Rattle.book.specs.Checks.{line_check};

use super::Basis;
use crate::ledger::covers::check_cover;
use crate::lines::check_line;
use flows::{FactorSource, UseRule};
use submission::Line;
use terms::{HOLDERS, Refusal};

impl<S: FactorSource, R: UseRule> Basis<S, R> {
    // The checks of the line at a place: by itself, its factors, and the cover of its guarantee by what is left of the free parts.
    pub(crate) fn check_next(
        &self,
        place: usize,
        line: &Line,
        free: &mut [u64; HOLDERS],
    ) -> Result<(), Refusal>
        ensures answer { (b : State) (earlier : List Entry) → Left b earlier free.old → result ≡ told (line_check (market_of S.FactorSource R.UseRule self.now) b place earlier line.now) }
        ensures left { (b : State) (earlier : List Entry) → Left b earlier free.old → OnOk result (Left b (line.now ∷ earlier) free.new) }
    {
        check_line(&self.calendar, place, line)?;
        self.check_factors(place, line)?;
        check_cover(free, place, line)
    }
}
