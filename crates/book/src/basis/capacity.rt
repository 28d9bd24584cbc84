ghost use Rattle.std.specs.Prelude.{◌≡◌};
ghost use Rattle.calendar.specs.Values.{IsMonth};
ghost use Rattle.book.specs.Market.{market_of};
ghost use Rattle.book.specs.Refusing.{told};
ghost use Rattle.book.specs.Checks.{limit_check, capacity_check};
ghost use Rattle.book.specs.Views.{rights};

use super::Basis;
use crate::rights::Rights;
use flows::{FactorSource, UseRule};
use terms::Refusal;

impl<S: FactorSource, R: UseRule> Basis<S, R> {
    // Whether the load of the rights stays within what a limit bears in a month.
    fn check_limit(&self, table: &Rights, month: u32, limit: u32) -> Result<(), Refusal>
        requires { IsMonth month }
        ensures { result ≡ told (limit_check (market_of S.FactorSource R.UseRule self.now) (rights table.now) month limit) }
    {
        let load = self.load_of(month, limit, table);
        let bound = self.bound_of(month, limit);
        if load > bound {
            return Err(Refusal::LimitPassed {
                month,
                limit,
                excess: (load - bound) as u64,
            });
        }
        Ok(())
    }

    // The same in every month at every limit.
    pub(crate) fn check_capacity(&self, table: &Rights) -> Result<(), Refusal>
        ensures { result ≡ told (capacity_check (market_of S.FactorSource R.UseRule self.now) (rights table.now)) }
    {
        self.check_each(|month, limit| self.check_limit(table, month, limit))
    }
}
