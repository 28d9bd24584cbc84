use crate::kinds::{Direction, LimitKind};
use crate::parts::{Capacity, Hours, PayDay, Price, RelationRow};
use terms::{Area, Table};

mod calls;
mod doors;
mod matrix;
mod questions;
mod study;

// A place of injection or withdrawal, with its price in each month.
#[derive(Clone, Copy)]
struct Node {
    area: Area,
    prices: [Price; 12],
}

// A bound on the flow out of, into or through an area, one way, in each month; and the pairs that load it.
#[derive(Clone, Copy)]
struct Limit {
    kind: LimitKind,
    area: Area,
    direction: Direction,
    values: [Capacity; 12],
    row: RelationRow,
}

#[derive(Clone, Copy, Default)]
struct Month {
    hours: Hours,
    pay_day: PayDay,
}

// The nodes, limits and months of a year. Every number in it is within its range by its type.
// No Model: a calendar is copied, and a view that forgets what fills the rows beyond the counts has no inverse.
#[derive(Clone, Copy)]
pub struct Calendar {
    nodes: Table<Node, NODES>,
    limits: Table<Limit, LIMITS>,
    months: [Month; 12],
}

const NODES: usize = terms::MOST_NODES as usize;

const LIMITS: usize = terms::MOST_LIMITS as usize;
