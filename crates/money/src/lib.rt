// The money of a right, in whole US cents: its floor, its guarantee, the instalments of its charge and what they lack.
#![tactic(auto)]

mod dues;
mod guarantees;
mod months;
mod transfer;

pub use dues::{Dues, Instalment};
pub use guarantees::guarantee;
pub use months::MonthSpan;
pub use transfer::Transfer;

#[cfg(test)]
mod tests;
