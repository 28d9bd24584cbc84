use calendar::Calendar;
use flows::{FactorSource, UseRule};

mod capacity;
mod factors;
mod lines;
mod loads;
mod order;

// What a book's answers rest on: its source of factors, its rule of use and its calendar. Clauses write its market out, as
// `market_of S.FactorSource R.UseRule`: a Model would hide that source and rule stay the very same, and cannot name a rule's allowed uses.
#[derive(Drop)]
pub struct Basis<S: FactorSource, R: UseRule> {
    pub(crate) source: S,
    pub(crate) rule: R,
    pub(crate) calendar: Calendar,
}
