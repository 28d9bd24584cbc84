ghost use Rattle.std.specs.Prelude.{◌≡◌, ◌≤◌, ⊤, length};

use std::alloc::AllocError;

mod items;

// A list of at most N plain items, held in place: the first `count` of N rows. The other rows say nothing.
pub struct Table<T, const N: usize> {
    rows: [T; N],
    count: usize,
    ghost all: { length rows ≡ N },
    ghost counted: { count ≤ N },
}

impl<T: Copy, const N: usize> Copy for Table<T, N> {}

// By hand: no Clone is derived for a struct over a type that has a ghost field.
impl<T: Copy, const N: usize> Clone for Table<T, N> {
    ghost is_clone = { λ table copy. copy ≡ table };

    ghost is_infallible = { λ _. ⊤ };

    fn clone(&self) -> Result<Self, AllocError> {
        Ok(*self)
    }
}
