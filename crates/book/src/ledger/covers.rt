ghost use Rattle.std.specs.Prelude.{◌≡◌, ◌-◌, ◌<◌, [], OnOk, nat_lt, slice_index, slice_set};
ghost use Rattle.terms.specs.declared.refusal.Refusal.TheVariants.{Uncovered};
ghost use Rattle.book.specs.Covers.{Left};
ghost use Rattle.book.specs.Checks.{room_for};
ghost use Rattle.book.specs.Refusing.{told, refuse_if};
ghost use Rattle.book.specs.Rights.{guarantee as guarantee_due};
ghost use Rattle.book.specs.Views.{view};

use super::Ledger;
use crate::right::guarantee;
use std::array;
use submission::Line;
use terms::{HOLDERS, MOST_SERIAL, ROWS, Refusal};

// Whether the free part that is left to the line's holder covers the line's guarantee, which is then taken from it.
pub(crate) fn check_cover(
    free: &mut [u64; HOLDERS],
    place: usize,
    line: &Line,
) -> Result<(), Refusal>
    requires { line.now.holder < 32 }
    ensures answer { result ≡ told (refuse_if (nat_lt (slice_index free.old line.now.holder) (guarantee_due line.now)) (Uncovered place)) }
    ensures left { OnOk result (free.new ≡ slice_set free.old line.now.holder (slice_index free.old line.now.holder - guarantee_due line.now)) }
{
    let left = free[line.holder as usize];
    let asked = guarantee(*line);
    if left < asked {
        return Err(Refusal::Uncovered { place });
    }
    free[line.holder as usize] = left - asked;
    Ok(())
}

impl Ledger {
    // The free parts of all holders.
    pub(crate) fn free_parts(&self) -> [u64; HOLDERS]
        ensures { Left (view self.now) [] result }
    {
        array::from_fn(|holder| self.free_part(holder as u32))
    }

    // Whether rows and serials suffice for so many lines.
    pub(crate) fn check_room(&self, lines: usize) -> Result<(), Refusal>
        ensures { result ≡ told (room_for (view self.now) lines) }
    {
        if lines > ROWS - self.rights.len()
            || self.next as usize + lines > MOST_SERIAL as usize + 1
        {
            return Err(Refusal::NoRoom);
        }
        Ok(())
    }
}
