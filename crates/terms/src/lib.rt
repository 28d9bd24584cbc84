// The terms of the market: its refusals, ranges, areas and pairs of areas, and tables of a fixed room.
#![tactic(auto)]

mod area;
mod pair;
mod ranges;
mod refusal;
mod table;

pub use area::Area;
pub use pair::Pair;
pub use ranges::{
    AREAS, COUNTED_FLOW, FLOW_OF_KILOWATT, HOLDERS, MONTHS, MOST_BALANCE, MOST_ENTRY, MOST_FACTOR,
    MOST_HOURS, MOST_LIMITS, MOST_LINES, MOST_NODES, MOST_OFFER, MOST_PAIR_ROWS, MOST_PAY_DAY,
    MOST_POWER, MOST_PRICE, MOST_REFERENCES, MOST_SERIAL, MOST_VALUE, PAIRS, ROWS,
};
pub use refusal::{Fields, Refusal};
pub use table::Table;
