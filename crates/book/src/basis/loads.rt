ghost use Rattle.std.specs.Prelude.{◌≡◌, ◌≤◌};
ghost use Rattle.terms.specs.Ranges.{most_power};
ghost use Rattle.calendar.specs.Values.{IsMonth};
ghost use Rattle.book.specs.Market.{market_of};
ghost use Rattle.book.specs.Loads.{worst_of, load as load_of, bound as bound_of};
ghost use Rattle.book.specs.Views.{rights};
ghost use Rattle.flows.specs.Factors.{Near};

use super::Basis;
use crate::marks::counts;
use crate::rights::Rights;
use flows::{FactorSource, UseRule};
use submission::Line;
use terms::FLOW_OF_KILOWATT;

impl<S: FactorSource, R: UseRule> Basis<S, R> {
    // The worst flow of a line at a limit in a month, 0 where the limit does not count it. `flows` sums up a list of rights as a limit sees
    // them, which nobody could make here without a heap.
    fn worst_of(&self, month: u32, limit: u32, line: &Line) -> i64
        requires { line.now.power ≤ most_power }
        ensures value { result ≡ worst_of (market_of S.FactorSource R.UseRule self.now) month limit line.now }
        ensures near { Near 2000000000000 result }
    {
        if !counts(&self.calendar, month, limit, line) {
            return 0;
        }
        match self
            .source
            .factor(month, limit, line.injection, line.withdrawal)
        {
            Some(factor) => self.rule.worst_flow(line.power, factor),
            None => 0,
        }
    }

    // The load of a limit in a month: the sum of the worst flows of the rights.
    pub(crate) fn load_of(&self, month: u32, limit: u32, table: &Rights) -> i64
        ensures value { result ≡ load_of (market_of S.FactorSource R.UseRule self.now) month limit (rights table.now) }
        ensures near { Near 192000000000000 result }
    {
        let mut sum: i64 = 0;
        let rights = table.as_slice();
        for right in rights {
            sum += self.worst_of(month, limit, &right.line);
        }
        sum
    }

    // What a limit bears in a month, in the unit of flows; an absent limit bears nothing.
    pub(crate) fn bound_of(&self, month: u32, limit: u32) -> i64
        requires { IsMonth month }
        ensures value { result ≡ bound_of (market_of S.FactorSource R.UseRule self.now) month limit }
        ensures near { Near 10000000000000 result }
    {
        let kilowatts = self.calendar.value(limit, month).unwrap_or(0);
        i64::from(kilowatts) * FLOW_OF_KILOWATT
    }
}
