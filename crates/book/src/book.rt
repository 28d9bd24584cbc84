use crate::basis::Basis;
use crate::ledger::Ledger;
use flows::{FactorSource, UseRule};

mod annul;
mod calls;
mod lines;
mod propose;
mod questions;

// A book: what it rests on, which stays fixed in it, and its plain tables.
#[derive(Drop)]
pub struct Book<S: FactorSource, R: UseRule> {
    basis: Basis<S, R>,
    ledger: Ledger,
}
