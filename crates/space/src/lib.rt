// Layer 3: how the nodes of a table are numbered, and where chains begin; the moves that are not passed over, and where they lead. The search and the
// steps of a walk use them.
#![tactic(auto)]

ghost use Rattle.std.specs.Prelude.{◌≡◌, ◌/◌, ◌<◌, ◌≤◌};
ghost use Rattle.space.specs.Space.{IsSpace, StartReady, IsStart};

pub mod graph;
pub mod moves;

use regions::{Region, nodes};
use table::Table;

// The number of nodes, and of those of a mode; the number of timers, and their ceilings, 0 behind the last one.
#[derive(Clone, Copy, Debug, PartialEq, Eq)]
pub struct Space {
    pub nodes: usize,
    pub block: usize,
    pub timers: usize,
    pub ceilings: [u8; Region::MOST_TIMERS],
}

pub fn space_of(table: &Table) -> Space
    ensures { IsSpace table.now.bytes result }
{
    let timers = table.timers();
    let ceilings = table.ceilings();
    // The unit's core multiplies in 32 bits.
    let block = nodes::cell_count(ceilings) as u32 * Region::corners(timers) as u32;
    let count = table.modes() as u32 * block;
    Space {
        nodes: count as usize,
        block: block as usize,
        timers,
        ceilings,
    }
}

// The node at which chains begin.
pub fn start_node(space: Space) -> usize
    requires { StartReady space }
    ensures { IsStart space result }
{
    let ceilings = space.ceilings;
    nodes::node_of(0, Region::start(space.timers), 0, ceilings)
}

// The mode of a node, or of a state, of which each mode has so many. The unit's core divides in 32 bits.
pub fn mode_of(node: usize, share: usize) -> usize
    requires { (node < 65536) × (1 ≤ share) × (share < 65536) }
    ensures { result ≡ node / share }
{
    (node as u32 / share as u32) as usize
}
