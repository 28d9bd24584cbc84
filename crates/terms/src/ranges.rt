// The ranges of the market. Every limit of a value or a count stands here once.

// Areas are numbered from 1, north to south.
pub const AREAS: u32 = 6;
// Pairs of an injection area and another withdrawal area, numbered from 0.
pub const PAIRS: u32 = 30;
// Months are numbered from 1.
pub const MONTHS: u32 = 12;
// Nodes of a calendar or a node table, numbered from 0.
pub const MOST_NODES: u32 = 64;
// Limits of a calendar or a node table, numbered from 1.
pub const MOST_LIMITS: u32 = 48;
// A price, either way, in thousandths of a dollar for a megawatt-hour.
pub const MOST_PRICE: i32 = 1_000_000;
// A limit's value in a month, in kilowatts.
pub const MOST_VALUE: u32 = 10_000_000;
// The hours of a month.
pub const MOST_HOURS: u32 = 744;
// A month's pay day.
pub const MOST_PAY_DAY: u32 = 1_000_000;
// The reference rights of one matrix.
pub const MOST_REFERENCES: usize = 300;
// The flow of a reference, in kilowatts, from which it counts at a limit of another pair.
pub const COUNTED_FLOW: i32 = 100;
// A factor, either way: flow in millionths of a kilowatt for each kilowatt used.
pub const MOST_FACTOR: i32 = 2_000_000;
// An entry of a node table, either way.
pub const MOST_ENTRY: i32 = 1_000_000;
// The rows of a pair list.
pub const MOST_PAIR_ROWS: usize = 1_000_000;
// The power of a right, in kilowatts.
pub const MOST_POWER: u32 = 1_000_000;
// The flow of one kilowatt, in millionths of a kilowatt.
pub const FLOW_OF_KILOWATT: i64 = 1_000_000;
// The lines of a submission.
pub const MOST_LINES: usize = 16;
// An offer, in cents.
pub const MOST_OFFER: u64 = 2_000_000_000_000;
// A holder's balance, in cents.
pub const MOST_BALANCE: u64 = 1_000_000_000_000_000;
// Holders of a book, numbered from 0.
pub const HOLDERS: usize = 32;
// Rows of a book for rights.
pub const ROWS: usize = 96;
// Serials of a book, numbered from 1.
pub const MOST_SERIAL: u32 = 1_000_000;
