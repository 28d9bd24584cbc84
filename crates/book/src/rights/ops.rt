ghost use Rattle.std.specs.Prelude.{◌≡◌, ℕ, ◌+◌, ◌<◌, ◌≤◌, [], ◌∷◌, ◌++◌, T, length, take, drop, None, MatchOption, MatchResult, ◌==◌, position, slice_index_or, slice_set};
ghost use Rattle.terms.specs.declared.refusal.Refusal.TheVariants.{Unknown};
ghost use Rattle.terms.specs.Ranges.{most_power};
ghost use Rattle.book.specs.Rows.{empty, all_small};
ghost use Rattle.book.specs.Rights.{debt, right_of, all_confirmed, in_force, paying, paid_on, without};
ghost use Rattle.book.specs.Tables.{removed, FirstAt, InForceAt, NoneInForce};
ghost use Rattle.book.specs.Views.{rights};

use super::Rights;
use crate::right::{EMPTY, Right};
use terms::{ROWS, Refusal};

// Takes out the row at a place: those behind it move down by one, and the last is empty.
fn close_gap(rows: &mut [Right], at: usize)
    requires { at < length rows.old }
    ensures { rows.new ≡ removed at rows.old ++ empty ∷ [] }
{
    rows[at] = EMPTY;
    rows[at..].rotate_left(1);
}

// Puts the first rights in force.
fn confirm_front(rows: &mut [Right], count: usize)
    requires { count ≤ length rows.old }
    ensures { rows.new ≡ all_confirmed (take count rows.old) ++ drop count rows.old }
{
    let (front, _) = rows.split_at_mut(count);
    for right in front.iter_mut() {
        *right = right.confirmed();
    }
}

// The place of the first right with a serial, in any list; `find` says what that is for the table.
fn place_of(rights: &[Right], serial: u32) -> Option<usize>
    ensures { result ≡ position (λ r. r.serial == serial) rights.now }
{
    rights.iter().position(|right| right.serial == serial)
}

impl Rights {
    pub(crate) fn none() -> Rights
        ensures { rights result ≡ [] }
    {
        Rights {
            rows: [EMPTY; ROWS],
            count: 0,
        }
    }

    pub(crate) fn len(&self) -> usize
        ensures { result ≡ length (rights self.now) }
    {
        self.count
    }

    pub(crate) fn as_slice(&self) -> &[Right]
        ensures value { result.now ≡ rights self.now }
        ensures few { length result.now ≤ 96 }
        ensures small { T (all_small result.now) }
    {
        &self.rows[..self.count]
    }

    // The right at a place. Places are numbers with a fact in each contract: no type of theirs would outlast a removal.
    pub(crate) fn get(&self, at: usize) -> Right
        requires { at < length (rights self.now) }
        ensures { result ≡ slice_index_or (rights self.now) at empty }
    {
        self.rows[at]
    }

    // One right more at the end, where there is room.
    pub(crate) fn push(&mut self, right: Right)
        requires room { length (rights self.old) < 96 }
        requires small { right.line.power ≤ most_power }
        ensures { rights self.new ≡ rights self.old ++ right ∷ [] }
    {
        self.rows[self.count] = right;
        self.count += 1;
    }

    // The place of the right with a serial.
    pub(crate) fn find(&self, serial: u32) -> Option<usize>
        ensures { MatchOption result (right_of serial (rights self.now) ≡ None) (FirstAt serial (rights self.now)) }
    {
        place_of(self.as_slice(), serial)
    }

    // The right with a serial.
    pub(crate) fn right(&self, serial: u32) -> Option<Right>
        ensures { result ≡ right_of serial (rights self.now) }
    {
        self.as_slice()
            .iter()
            .find(|right| right.serial == serial)
            .copied()
    }

    // The place of the right in force with a serial, and the right.
    pub(crate) fn in_force_at(&self, serial: u32) -> Result<(usize, Right), Refusal>
        ensures { MatchResult result (λ found. InForceAt serial (rights self.now) found.0 found.1) (λ e. (e ≡ Unknown) × NoneInForce serial (rights self.now)) }
    {
        let at = self.find(serial).ok_or(Refusal::Unknown)?;
        let right = self.get(at);
        if !right.is_in_force() {
            return Err(Refusal::Unknown);
        }
        Ok((at, right))
    }

    // Takes out the right at a place, and closes the gap.
    pub(crate) fn remove(&mut self, at: usize)
        requires { at < length (rights self.old) }
        ensures place { rights self.new ≡ removed at (rights self.old) }
        ensures serial { (s : ℕ) → FirstAt s (rights self.old) at → rights self.new ≡ without s (rights self.old) }
    {
        close_gap(&mut self.rows, at);
        self.count -= 1;
    }

    // Keeps the rights in force alone.
    pub(crate) fn keep_in_force(&mut self)
        ensures { rights self.new ≡ in_force (rights self.old) }
    {
        let mut staying = Rights::none();
        let rights = self.as_slice();
        for right in rights {
            if right.is_in_force() {
                staying.push(*right);
            }
        }
        *self = staying;
    }

    // Puts every right in force.
    pub(crate) fn put_in_force(&mut self)
        ensures { rights self.new ≡ all_confirmed (rights self.old) }
    {
        confirm_front(&mut self.rows, self.count);
    }

    // Notes a payment on the right at a place, up to its debt.
    pub(crate) fn pay(&mut self, at: usize, amount: u64)
        requires inside { at < length (rights self.old) }
        requires owed { amount ≤ debt (slice_index_or (rights self.old) at empty) }
        ensures place { rights self.new ≡ slice_set (rights self.old) at (paying (slice_index_or (rights self.old) at empty) amount) }
        ensures serial { (s : ℕ) → FirstAt s (rights self.old) at → rights self.new ≡ paid_on s amount (rights self.old) }
    {
        self.rows[at] = self.rows[at].paying(amount);
    }
}
