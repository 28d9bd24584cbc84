ghost use Rattle.std.specs.Prelude.{◌≡◌, ◌≤◌, MatchOption};
ghost use Rattle.calendar.specs.Matrix.{IsPair, is_of};

use terms::{Area, Pair};

// A reference right of 100 MW from an injection area to a withdrawal area.
#[derive(Clone, Copy)]
pub struct Reference {
    pub injection: u32,
    pub withdrawal: u32,
}

impl Reference {
    // The pair of its areas, if they are two different ones.
    pub(crate) fn pair(self) -> Option<Pair>
        ensures { MatchOption result (IsPair self → ⊥) (λ p. IsPair self × (p.injection.number ≡ self.injection) × (p.withdrawal.number ≡ self.withdrawal)) }
    {
        Pair::new(Area::new(self.injection)?, Area::new(self.withdrawal)?)
    }

    // Whether it is of the pair of this number, as the bits of a row are numbered.
    pub(crate) fn is_of(self, pair: u32) -> bool
        requires { IsPair self }
        ensures { result ≡ is_of self pair }
    {
        self.pair().is_some_and(|own| own.number() == pair)
    }
}
