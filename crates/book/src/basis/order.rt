ghost use Rattle.std.specs.Prelude.{◌≡◌, ℕ, Option};
ghost use Rattle.terms.specs.declared.refusal.Refusal.{Refusal as Reason};
ghost use Rattle.calendar.specs.Values.{IsMonth};
ghost use Rattle.book.specs.Market.{market_of};
ghost use Rattle.book.specs.Refusing.{told, Describes};
ghost use Rattle.book.specs.Checks.{by_month_and_limit};

use super::Basis;
use flows::{FactorSource, UseRule};
use terms::{MONTHS, Refusal};

impl<S: FactorSource, R: UseRule> Basis<S, R> {
    // Makes a check in every month at every limit, by month and then limit; the first refusal decides.
    // A month and a limit stay two numbers: the source of factors, the calendar and the refusals take them one by one.
    pub(super) fn check_each<C: Fn(u32, u32) -> Result<(), Refusal>>(
        &self,
        check: C,
    ) -> Result<(), Refusal>
        requires { (month limit : ℕ) → IsMonth month → C.pre check month limit }
        ensures { (f : ℕ → ℕ → Option Reason) → Describes (C.post check) f → result ≡ told (by_month_and_limit (market_of S.FactorSource R.UseRule self.now) f) }
    {
        // Months and limits are numbers, and no list of them is kept.
        for month in 1..=MONTHS {
            for limit in 1..=self.calendar.limit_count() {
                check(month, limit)?;
            }
        }
        Ok(())
    }
}
