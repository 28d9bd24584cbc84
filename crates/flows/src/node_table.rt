ghost use Rattle.std.specs.Prelude.{◌≡◌, [], ◌∷◌, ◌++◌, is_ok, if◌then◌else◌};
ghost use Rattle.flows.specs.Nodes.{in_table, stored_at, entry_at, node_factor};
ghost use Rattle.std.proofs.Common.{rules};

use crate::range::within;
use crate::source::FactorSource;
use std::alloc::{AllocError, Global};
use terms::{MONTHS, MOST_ENTRY, MOST_LIMITS, MOST_NODES};

// A table with an entry for each month, limit and node; a factor is the difference of two entries.
#[derive(Debug, Drop)]
pub struct NodeTable {
    limits: u32,
    nodes: u32,
    entries: Vec<i32>,
}

impl NodeTable {
    // A table of these counts, without entries yet.
    pub fn new(heap: Global, limits: u32, nodes: u32) -> NodeTable
        ensures limits { result.limits ≡ limits }
        ensures nodes { result.nodes ≡ nodes }
        ensures entries { result.entries.items ≡ [] }
    {
        NodeTable::from_entries(limits, nodes, Vec::new(heap))
    }

    // A table of these counts and entries.
    pub fn from_entries(limits: u32, nodes: u32, entries: Vec<i32>) -> NodeTable
        ensures limits { result.limits ≡ limits }
        ensures nodes { result.nodes ≡ nodes }
        ensures entries { result.entries.items ≡ entries.items }
    {
        NodeTable {
            limits,
            nodes,
            entries,
        }
    }

    // Puts an entry after the others.
    pub fn push(&mut self, entry: i32) -> Result<(), AllocError>
        ensures limits { self.new.limits ≡ self.old.limits }
        ensures nodes { self.new.nodes ≡ self.old.nodes }
        ensures entries { self.new.entries.items ≡ (if is_ok result then self.old.entries.items ++ entry ∷ [] else self.old.entries.items) }
    {
        self.entries.push(entry)?;
        Ok(())
    }

    // Whether the counts, the month, the limit and the node have their ranges. The three come apart, as a source is asked.
    fn has(&self, month: u32, limit: u32, node: u32) -> bool
        ensures { result ≡ in_table self.now.limits self.now.nodes month limit node }
    {
        self.limits <= MOST_LIMITS
            && self.nodes <= MOST_NODES
            && (1..=MONTHS).contains(&month)
            && (1..=self.limits).contains(&limit)
            && node < self.nodes
    }

    // What stands at the place of a node in a month at a limit.
    fn stored(&self, month: u32, limit: u32, node: u32) -> Option<i32>
        ensures { result ≡ stored_at self.now.limits self.now.nodes self.now.entries.items month limit node }
    {
        if !self.has(month, limit, node) {
            return None;
        }
        let place = (((month - 1) * self.limits + (limit - 1)) * self.nodes + node) as usize;
        self.entries.get(place).copied()
    }

    // The entry of a node in a month at a limit, if it lies in its range.
    fn entry(&self, month: u32, limit: u32, node: u32) -> Option<i32>
        ensures { result ≡ entry_at self.now.limits self.now.nodes self.now.entries.items month limit node }
    {
        within(MOST_ENTRY, self.stored(month, limit, node)?)
    }
}

impl FactorSource for NodeTable {
    ghost means = { λ t month limit injection withdrawal. node_factor t.limits t.nodes t.entries.items month limit injection withdrawal };

    ghost ranged = { Prim.search rules };

    fn factor(&self, month: u32, limit: u32, injection: u32, withdrawal: u32) -> Option<i32> {
        let injected = self.entry(month, limit, injection)?;
        let withdrawn = self.entry(month, limit, withdrawal)?;
        Some(injected - withdrawn)
    }
}
