ghost use Rattle.std.specs.Prelude.{◌≡◌, false, ◌==◌};

use crate::area::Area;

mod numbers;

// An injection area and another withdrawal area.
#[derive(Clone, Copy, Debug, PartialEq, Eq)]
pub struct Pair {
    injection: Area,
    withdrawal: Area,
    ghost apart: { (injection.number == withdrawal.number) ≡ false },
}
