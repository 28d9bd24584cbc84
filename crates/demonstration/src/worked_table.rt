ghost use Rattle.std.specs.Prelude.{◌≡◌, IfOk};
ghost use Rattle.demonstration.specs.Tables.{worked_entries};

use flows::NodeTable;
use std::alloc::{AllocError, Global};
use terms::MONTHS;

const LIMITS: u32 = 2;

const NODES: u32 = 3;

// The entries of a month: of the three nodes at limit 1, and then at limit 2.
const MONTH: [i32; 6] = [1_000_000, 0, 0, -1_000_000, 0, 0];

// The node table of the worked example, with the same entries in every month.
pub fn table(heap: Global) -> Result<NodeTable, AllocError>
    ensures { IfOk result (λ t. (t.limits ≡ 2) × (t.nodes ≡ 3) × (t.entries.items ≡ worked_entries)) }
{
    let entries = MONTH.repeat(heap, MONTHS as usize)?;
    Ok(NodeTable::from_entries(LIMITS, NODES, entries))
}
