ghost use Rattle.std.specs.Prelude.{◌≡◌, ℕ, ◌≤◌, ℤ, pos, ◌*ℤ◌, ◌≤ℤ◌};
ghost use Rattle.terms.specs.Ranges.{most_power};
ghost use Rattle.flows.specs.Factors.{InFactorRange};

// A rule of use: which uses of a right are allowed, and the worst flow among them.
// All that it promises is for powers up to 1,000,000 kW and factors within ±2,000,000.
pub trait UseRule {
    // Whether a right of this power may be used this much, in kilowatts.
    ghost allowed: { Self → ℕ → ℕ → Type 0 };

    // The worst flow of a right of this power at this factor.
    ghost worst: { Self → ℕ → ℤ → ℤ };

    fn worst_flow(&self, power: u32, factor: i32) -> i64
        ensures { power ≤ most_power → InFactorRange factor → result ≡ worst self.now power factor };

    // An allowed use is from 0 to the power.
    ghost bounded: { (s : Self) (power used : ℕ) → power ≤ most_power → allowed s power used → used ≤ power };

    // At least one use is allowed.
    ghost usable: { (s : Self) (power : ℕ) → power ≤ most_power → (used : ℕ) × allowed s power used };

    // The worst flow is that of some allowed use.
    ghost attained: { (s : Self) (power : ℕ) (factor : ℤ) → power ≤ most_power → InFactorRange factor → (used : ℕ) × (allowed s power used) × (worst s power factor ≡ factor *ℤ pos used) };

    // No allowed use has a greater flow.
    ghost dominates: { (s : Self) (power used : ℕ) (factor : ℤ) → power ≤ most_power → InFactorRange factor → allowed s power used → (factor *ℤ pos used) ≤ℤ (worst s power factor) };
}
