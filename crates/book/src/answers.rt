// What is charged on a right, paid of it, left to pay and held as its guarantee, in cents.
#[derive(Clone, Copy, Debug, PartialEq, Eq)]
pub struct Statement {
    pub charge: u64,
    pub paid: u64,
    pub debt: u64,
    pub guarantee: u64,
}

// A holder's balance, and what of it no guarantee holds, in cents.
#[derive(Clone, Copy, Debug, PartialEq, Eq)]
pub struct Account {
    pub balance: u64,
    pub free: u64,
}

// What an annulment takes from the holder's balance, and what it writes off, in cents.
#[derive(Clone, Copy, Debug, PartialEq, Eq)]
pub struct Annulment {
    pub taking: u64,
    pub write_off: u64,
}
