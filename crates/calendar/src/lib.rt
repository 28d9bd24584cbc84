// The calendar: nodes with prices, transfer limits with monthly values and relation rows, and months.
#![tactic(auto)]

mod calendar;
mod kinds;
mod parts;
mod reference;

pub use calendar::Calendar;
pub use kinds::{Direction, LimitKind};
pub use reference::Reference;

#[cfg(test)]
mod tests;
