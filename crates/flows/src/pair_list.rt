ghost use Rattle.std.specs.Prelude.{◌≡◌, [], ◌∷◌, ◌++◌, is_ok, if◌then◌else◌, find};
ghost use Rattle.std.specs.Option.{option_copied};
ghost use Rattle.flows.specs.PairRows.{fits, pair_factor};
ghost use Rattle.flows.specs.Ranges.{pair_factor_ranged};

use crate::range::within;
use crate::source::FactorSource;
use std::alloc::{AllocError, Global};
use terms::{MOST_FACTOR, MOST_PAIR_ROWS};

// The factor of an injection and a withdrawal node in a month at a limit.
#[derive(Clone, Copy, Debug, PartialEq, Eq)]
pub struct PairRow {
    pub month: u32,
    pub limit: u32,
    pub injection: u32,
    pub withdrawal: u32,
    pub factor: i32,
}

impl PairRow {
    // Whether the row is of this month, limit and pair of nodes.
    // The four numbers come apart, as a source is asked: a struct of them would be made for this comparison alone.
    fn fits(&self, month: u32, limit: u32, injection: u32, withdrawal: u32) -> bool
        ensures { result ≡ fits month limit injection withdrawal self.now }
    {
        self.month == month
            && self.limit == limit
            && self.injection == injection
            && self.withdrawal == withdrawal
    }
}

// A list of factors; the first row that fits decides.
#[derive(Debug, Drop)]
pub struct PairList {
    rows: Vec<PairRow>,
}

impl PairList {
    // A list without rows.
    pub fn new(heap: Global) -> PairList
        ensures { result.rows.items ≡ [] }
    {
        PairList {
            rows: Vec::new(heap),
        }
    }

    // Puts a row after the others.
    pub fn push(&mut self, row: PairRow) -> Result<(), AllocError>
        ensures { self.new.rows.items ≡ (if is_ok result then self.old.rows.items ++ row ∷ [] else self.old.rows.items) }
    {
        self.rows.push(row)?;
        Ok(())
    }

    // The first row that fits.
    fn first_fitting(
        &self,
        month: u32,
        limit: u32,
        injection: u32,
        withdrawal: u32,
    ) -> Option<&PairRow>
        ensures { option_copied result ≡ find (fits month limit injection withdrawal) self.now.rows.items }
    {
        self.rows
            .iter()
            .find(|row| row.fits(month, limit, injection, withdrawal))
    }
}

// A list of these rows.
impl From<Vec<PairRow>> for PairList {
    ghost from_gives = { λ rows list. list.rows.items ≡ rows.items };

    fn from(rows: Vec<PairRow>) -> PairList {
        PairList { rows }
    }
}

impl FactorSource for PairList {
    ghost means = { λ t month limit injection withdrawal. pair_factor t.rows.items month limit injection withdrawal };

    ghost ranged = { λ s month limit injection withdrawal. pair_factor_ranged s.rows.items month limit injection withdrawal };

    fn factor(&self, month: u32, limit: u32, injection: u32, withdrawal: u32) -> Option<i32> {
        if self.rows.len() > MOST_PAIR_ROWS {
            return None;
        }
        let row = self.first_fitting(month, limit, injection, withdrawal)?;
        within(MOST_FACTOR, row.factor)
    }
}
