ghost use Rattle.std.specs.Prelude.{◌≡◌, ◌<◌, ◌≤◌, MatchOption};

use crate::ranges::AREAS;

// An area of the market, 1 to 6 from north to south.
#[derive(Clone, Copy, Debug, PartialEq, Eq)]
pub struct Area {
    number: u32,
    ghost first: { 1 ≤ number },
    ghost last: { number ≤ 6 },
}

impl Area {
    // The area of this number, if there is one. An Option and no TryFrom, since each caller refuses in its own words.
    pub fn new(number: u32) -> Option<Area>
        ensures { MatchOption result ((1 ≤ number) × (number ≤ 6) → ⊥) (λ a. a.number ≡ number) }
    {
        if !(1..=AREAS).contains(&number) {
            return None;
        }
        Some(Area { number })
    }

    pub fn number(self) -> u32
        ensures value { result ≡ self.number }
        ensures range { (1 ≤ result) × (result ≤ 6) }
    {
        self.number
    }
}
