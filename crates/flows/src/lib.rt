// Factor sources, use rules, and the worst case over every choice of uses.
#![tactic(auto)]

mod load;
mod node_table;
mod pair_list;
mod range;
mod rule;
mod rules;
mod source;

pub use load::{MOST_RIGHTS, RightAtLimit, within_bound, worst_load};
pub use node_table::NodeTable;
pub use pair_list::{PairList, PairRow};
pub use rule::UseRule;
pub use rules::{FirmRule, ObligationRule};
pub use source::FactorSource;

#[cfg(test)]
mod tests;
