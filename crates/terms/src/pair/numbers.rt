ghost use Rattle.std.specs.Prelude.{◌≡◌, ◌<◌, ◌≤◌, MatchOption};
ghost use Rattle.terms.specs.Pairs.{number_of, SamePair};

use super::Pair;
use crate::area::Area;

impl Pair {
    // The pair of two areas, unless they are one.
    pub fn new(injection: Area, withdrawal: Area) -> Option<Pair>
        ensures { MatchOption result (injection.number ≡ withdrawal.number) (λ p. (p.injection ≡ injection) × (p.withdrawal ≡ withdrawal)) }
    {
        if injection == withdrawal {
            return None;
        }
        Some(Pair {
            injection,
            withdrawal,
        })
    }

    // Accessors, since the fields are private for the sake of their fact.
    pub fn injection(self) -> Area
        ensures { result ≡ self.injection }
    {
        self.injection
    }

    pub fn withdrawal(self) -> Area
        ensures { result ≡ self.withdrawal }
    {
        self.withdrawal
    }

    // The pair's number, below 30, which no other pair has.
    pub fn number(self) -> u32
        ensures value { result ≡ number_of self }
        ensures bound { result < 30 }
        ensures alone { (other : Pair) → number_of other ≡ result → SamePair other self }
    {
        let injection = self.injection.number();
        let withdrawal = self.withdrawal.number();
        let place = if withdrawal < injection {
            withdrawal - 1
        } else {
            withdrawal - 2
        };
        5 * (injection - 1) + place
    }

    // The pair of this number, if it is below 30. An Option and no TryFrom, as for an area.
    pub fn numbered(number: u32) -> Option<Pair>
        ensures { MatchOption result (30 ≤ number) (λ p. number_of p ≡ number) }
    {
        let injection = Area::new(number / 5 + 1)?;
        let place = number % 5 + 1;
        let withdrawal = Area::new(if place < injection.number() {
            place
        } else {
            place + 1
        })?;
        Pair::new(injection, withdrawal)
    }
}
