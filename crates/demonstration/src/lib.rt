// The worked example of the market: its calendar, its node table, and what a book answers on them.
#![tactic(auto)]

mod program;
mod theorem;
mod worked_calendar;
mod worked_table;

pub use program::{Fault, answer, firm_book};
pub use theorem::cases_stand;
pub use worked_calendar::calendar;
pub use worked_table::table;

#[cfg(test)]
mod tests;
