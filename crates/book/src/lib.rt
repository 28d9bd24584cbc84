// The book: rights sold and proposed, what is paid and held on them, and what every history of calls keeps.
#![tactic(auto)]

mod answers;
mod award;
mod basis;
mod book;
mod ledger;
mod lines;
mod marks;
mod right;
mod rights;
mod theorem;

pub use answers::{Account, Annulment, Statement};
pub use award::{Award, AwardNumbers, Returned};
pub use book::Book;
