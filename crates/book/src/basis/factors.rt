ghost use Rattle.std.specs.Prelude.{◌≡◌};
ghost use Rattle.book.specs.Market.{market_of};
ghost use Rattle.book.specs.Refusing.{told};
ghost use Rattle.book.specs.Checks.{factor_at, factors_check};

use super::Basis;
use crate::marks::counts;
use flows::{FactorSource, UseRule};
use submission::Line;
use terms::Refusal;

impl<S: FactorSource, R: UseRule> Basis<S, R> {
    // Whether the source has a factor for the line at a limit in a month, where the limit counts the line. The place is the line's in its
    // submission; `flows` refuses by the same name with a place in a list of rights.
    fn check_factor(&self, place: usize, line: &Line, month: u32, limit: u32) -> Result<(), Refusal>
        ensures { result ≡ told (factor_at (market_of S.FactorSource R.UseRule self.now) place line.now month limit) }
    {
        if counts(&self.calendar, month, limit, line) {
            self.source
                .factor(month, limit, line.injection, line.withdrawal)
                .ok_or(Refusal::NoFactor {
                    place,
                    month,
                    limit,
                })?;
        }
        Ok(())
    }

    // The same in every month at every limit.
    pub(super) fn check_factors(&self, place: usize, line: &Line) -> Result<(), Refusal>
        ensures { result ≡ told (factors_check (market_of S.FactorSource R.UseRule self.now) place line.now) }
    {
        self.check_each(|month, limit| self.check_factor(place, line, month, limit))
    }
}
