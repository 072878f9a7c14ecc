// The nodes of a search by their numbers: cells, nodes, and how many there are. The arithmetic is in 32 bits.
ghost use Rattle.std.specs.Prelude.{◌≡◌, cond, ◌<◌, ◌≤◌, leb, take};
ghost use Rattle.semantics.specs.NodeCount.{cell_count, node_count};
ghost use Rattle.semantics.specs.Nodes.Node.{node_of, node_number, node_at};
ghost use Rattle.table.specs.Held.{automaton_of, IsTable};
ghost use Rattle.regions.specs.Held.{most_timers, view, Valid};
ghost use Rattle.regions.specs.Nodes.{most_modes, most_cells, most_nodes, CeilingsFew, Padded, bounded, pack_node, pack_node_region};

use crate::Region;
use corners::cells::{cell_at, cell_number, cells};
use corners::tables;
use corners::tables::CornerAt;
use table::Table;

// "E may be at most 65,536."
pub const MOST_NODES: usize = 65536;

// A node with the region of which it is a corner: its mode, the region with its corners' indices as prices, the number of the node that is the
// region's corner 0, and the node's own index. The nodes of a region's corners have numbers in a row.
#[derive(Clone, Copy)]
pub struct NodeRegion {
    pub mode: usize,
    pub region: Region,
    pub first: usize,
    pub index: usize,
}

// A node: a mode, the whole parts of the timers, which are the cell, and a corner of the cell.
#[derive(Clone, Copy)]
struct NodeAt {
    mode: usize,
    whole: [u8; Region::MOST_TIMERS],
    corner: CornerAt,
}

// How many cells there are.
pub fn cell_count(ceilings: [u8; Region::MOST_TIMERS]) -> usize
    requires { CeilingsFew ceilings }
    ensures { (result ≡ cell_count ceilings) × (1 ≤ result) × (result ≤ most_cells) }
{
    cells(ceilings) as usize
}

// The number of the node that is a region's corner in a mode.
pub fn node_of(
    mode: usize,
    region: Region,
    index: usize,
    ceilings: [u8; Region::MOST_TIMERS],
) -> usize
    requires { Valid region × (index ≤ region.top) × (mode < most_modes) × CeilingsFew ceilings × Padded region.timers ceilings }
    ensures { result ≡ node_number (take region.timers ceilings) (node_of mode (view region) index) }
{
    let cell = mode as u32 * cells(ceilings) + cell_number(ceilings, region.whole);
    let first = cell * tables::corner_count(usize::from(region.timers));
    first as usize + region.corner(index)
}

// The node with a number.
fn node_at(timers: usize, ceilings: [u8; Region::MOST_TIMERS], number: u32) -> NodeAt
    requires { (1 ≤ timers) × (timers ≤ most_timers) × CeilingsFew ceilings × Padded timers ceilings }
    ensures { result ≡ pack_node (node_at (take timers ceilings) number) }
{
    let corners = tables::corner_count(timers);
    let cells = cells(ceilings);
    let cell = number / corners;
    NodeAt {
        mode: (cell / cells) as usize,
        whole: cell_at(ceilings, cell % cells),
        corner: tables::corner_at(timers, (number % corners) as usize),
    }
}

// i, where the region has a corner with that index.
fn index_to(top: u8, i: u32) -> u32
    ensures { result ≡ cond (leb i top) i 0 }
{
    if i <= u32::from(top) { i } else { 0 }
}

// The region of which the node with a number is a corner.
pub fn region_at(timers: usize, ceilings: [u8; Region::MOST_TIMERS], number: usize) -> NodeRegion
    requires { (1 ≤ timers) × (timers ≤ most_timers) × CeilingsFew ceilings × Padded timers ceilings × (number < most_nodes) }
    ensures { result ≡ pack_node_region (take timers ceilings) (node_at (take timers ceilings) number) }
{
    let NodeAt {
        mode,
        whole,
        corner: CornerAt { group, index, top },
    } = node_at(timers, ceilings, number as u32);
    NodeRegion {
        mode,
        region: Region {
            timers: timers as u8,
            top,
            whole,
            group,
            prices: [0, index_to(top, 1), index_to(top, 2), index_to(top, 3)],
        },
        first: number - index,
        index,
    }
}

// "E = m × the product of all (ceiling + 1) × that number", if it is not above 65,536.
pub fn node_count(table: &Table) -> Option<usize>
    ensures { result ≡ bounded (node_count (automaton_of table.now.bytes)) }
{
    let modes = table.modes() as u32;
    let count = (modes * cells(table.ceilings()) * tables::corner_count(table.timers())) as usize;
    (count <= MOST_NODES).then_some(count)
}
