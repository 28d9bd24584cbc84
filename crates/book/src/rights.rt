ghost use Rattle.std.specs.Prelude.{◌≡◌, ◌-◌, ◌≤◌, T, length, drop, replicate};
ghost use Rattle.book.specs.Rows.{empty, all_small};

use crate::right::Right;
use terms::ROWS;

// The table of rights: 96 plain rows, of which the first so many hold rights in the order of their serials; the others are empty.
// No Vec and no map: no call allocates, and a call that may refuse changes a copy of the whole table first. No `terms::Table` either:
// the rows behind the count are empty ones, every row is small, and a row that is left closes up.
#[derive(Clone, Copy)]
pub struct Rights {
    rows: [Right; ROWS],
    count: usize,
    ghost full: { length rows ≡ 96 },
    ghost counted: { count ≤ 96 },
    ghost behind: { drop count rows ≡ replicate (96 - count) empty },
    ghost small: { T (all_small rows) },
}

mod ops;
