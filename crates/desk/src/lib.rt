// Calls on a book as values: a desk that holds a book with its open award, and runs over lists of calls.
#![tactic(auto)]

mod desk;

pub use desk::{Answer, Call, Desk, Outcome, run};
