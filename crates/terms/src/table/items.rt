ghost use Rattle.std.specs.Prelude.{◌≡◌, ◌<◌, ◌≤◌, ◌++◌, ◌∷◌, [], length, slice_set, MatchResult};
ghost use Rattle.terms.specs.Tables.{held};

use super::Table;

impl<T: Copy, const N: usize> Table<T, N> {
    // No items. The rows hold the filler until an item takes their place.
    pub fn new(filler: T) -> Self
        ensures { held result ≡ [] }
    {
        Table {
            rows: [filler; N],
            count: 0,
        }
    }

    pub fn len(&self) -> usize
        ensures value { result ≡ length (held self.now) }
        ensures bound { result ≤ N }
    {
        self.count
    }

    pub fn as_slice(&self) -> &[T]
        ensures { result.now ≡ held self.now }
    {
        &self.rows[..self.count]
    }

    // One item more at the end, or the item back where the table is full.
    pub fn push(&mut self, item: T) -> Result<(), T>
        ensures { MatchResult result (λ _. held self.new ≡ held self.old ++ item ∷ [])
            (λ back. (back ≡ item) × (self.new ≡ self.old) × (length (held self.old) ≡ N)) }
    {
        if self.count == N {
            return Err(item);
        }
        self.rows[self.count] = item;
        self.count += 1;
        Ok(())
    }

    // Another item at a place, or the item back where none stands there.
    pub fn set(&mut self, at: usize, item: T) -> Result<(), T>
        ensures { MatchResult result (λ _. (at < length (held self.old)) × (held self.new ≡ slice_set (held self.old) at item))
            (λ back. (back ≡ item) × (self.new ≡ self.old) × (length (held self.old) ≤ at)) }
    {
        if at >= self.count {
            return Err(item);
        }
        self.rows[at] = item;
        Ok(())
    }
}
