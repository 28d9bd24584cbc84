ghost use Rattle.demonstration.specs.declared.program.Fault.TheVariants.{Memory};
ghost use Rattle.std.specs.Prelude.{◌≡◌};

use std::alloc::AllocError;

mod line;

pub use line::{answer, firm_book};

// Why there is no line: want of memory, or a buffer that is too short.
#[derive(Clone, Copy, Debug)]
pub enum Fault {
    Memory,
    ShortBuffer,
}

impl From<AllocError> for Fault {
    ghost from_gives = { λ _ r. r ≡ Memory };

    fn from(_e: AllocError) -> Fault {
        Fault::Memory
    }
}
