ghost use Rattle.std.specs.Prelude.{◌≡◌, pos, ◌*ℤ◌};
ghost use Rattle.flows.specs.Rules.{up_to_all, all_of, firm_worst, obligation_worst};
ghost use Rattle.std.proofs.Common.{rules};
ghost use Rattle.flows.specs.Products.{firm_attained, firm_dominates};

use crate::rule::UseRule;

// The flow of a use at a factor, in millionths of a kilowatt.
fn flow(factor: i32, used: u32) -> i64
    ensures { result ≡ factor *ℤ pos used }
{
    i64::from(factor) * i64::from(used)
}

// The firm rule: the holder may use any part of the power.
#[derive(Clone, Copy, Debug, PartialEq, Eq)]
pub struct FirmRule;

impl UseRule for FirmRule {
    ghost allowed = { λ _ power used. up_to_all power used };

    ghost worst = { λ _ power factor. firm_worst power factor };

    ghost bounded = { Prim.search rules };

    ghost usable = { Prim.search rules };

    ghost attained = { Prim.search (rules, firm_attained) };

    ghost dominates = { Prim.search (rules, firm_dominates) };

    fn worst_flow(&self, power: u32, factor: i32) -> i64 {
        flow(factor.max(0), power)
    }
}

// The obligation rule: the holder has to use the whole power.
#[derive(Clone, Copy, Debug, PartialEq, Eq)]
pub struct ObligationRule;

// As for the firm rule: each `impl` gives the members of the trait, and both share `flow`.
impl UseRule for ObligationRule {
    ghost allowed = { λ _ power used. all_of power used };

    ghost worst = { λ _ power factor. obligation_worst power factor };

    ghost bounded = { Prim.search rules };

    ghost usable = { Prim.search rules };

    ghost attained = { Prim.search rules };

    ghost dominates = { Prim.search rules };

    fn worst_flow(&self, power: u32, factor: i32) -> i64 {
        flow(factor, power)
    }
}
