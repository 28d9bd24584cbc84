ghost use Rattle.std.specs.Prelude.{◌≡◌, ℕ, ℤ, Option};
ghost use Rattle.flows.specs.Factors.{Ranged};

// A source of factors. It answers by its meaning, and answering alters nothing.
pub trait FactorSource {
    // The factor for a month, a limit, an injection node and a withdrawal node, or none.
    ghost means: { Self → ℕ → ℕ → ℕ → ℕ → Option ℤ };

    fn factor(&self, month: u32, limit: u32, injection: u32, withdrawal: u32) -> Option<i32>
        ensures { result ≡ means self.now month limit injection withdrawal };

    // A factor lies within ±2,000,000.
    ghost ranged: { (s : Self) (month limit injection withdrawal : ℕ) → Ranged (means s month limit injection withdrawal) };
}
