// The edges of a node, relaxed one after another.
ghost use Rattle.std.specs.Prelude.{◌≡◌, ◌+◌, ◌*◌, ◌<◌, ◌≤◌};
ghost use Rattle.table.specs.Meaning.{named_timers};
ghost use Rattle.space.specs.Images.{image_of, NodeImage, ImageReady, Images, ImageDone};
ghost use Rattle.search.specs.Edges.{IsMove, IsWait, IsAny, Short, EdgesReadyIn, EdgesDoneIn};
ghost use Rattle.search.specs.Waits.{IsDelay, IsLinger, WaitReady, WaitDone, DelayReady};

use regions::nodes;
use regions::nodes::NodeRegion;
use space::graph::CornerGraph;
use space::{Space, moves};

// A node whose edges are relaxed: the corner that it is, its charge, and the steps with which its edges arrive, one more than its own.
#[derive(Clone, Copy)]
pub struct Source {
    pub at: NodeRegion,
    pub charge: u32,
    pub steps: u32,
}

// Relaxes the edges of a node. A cost of E steps or more is not offered: no least cost has so many.
pub fn relax_edges(words: &mut [u32], corners: &CornerGraph, from: Source)
    requires { EdgesReadyIn corners.now from words.old }
    ensures { EdgesDoneIn IsAny corners.now from words.old words.new }
{
    if corners.space.nodes <= from.steps as usize {
        return;
    }
    relax_waits(words, corners, from);
    relax_moves(words, corners, from);
}

// Linger has an edge only where r0 is empty, from corner 0 to the last.
fn relax_linger(words: &mut [u32], nodes: usize, from: Source, empty: bool, rate: u32)
    requires { WaitReady nodes from empty rate words.old }
    ensures { (r : WaitReady nodes from empty rate words.old) → WaitDone IsLinger r words.new }
{
    let at = from.at;
    let region = at.region;
    if empty {
        if at.index == 0 {
            let last = at.first + region.top();
            queue::relax(words, nodes, last, rate + from.charge, from.steps);
        }
    }
}

// A delay leads to the region whose corner 0 is the node `to`. Where r0 is empty it drops corner 0, so that each other corner becomes the one before it;
// where it is not, each corner stays, and corner 0 also leads to a new last one, at the rate.
fn relax_delay(words: &mut [u32], nodes: usize, from: Source, to: usize, empty: bool, rate: u32)
    requires { DelayReady nodes from to empty rate words.old }
    ensures { (r : DelayReady nodes from to empty rate words.old) → WaitDone IsDelay r.wait words.new }
{
    let at = from.at;
    let region = at.region;
    let index = at.index;
    if empty {
        if 0 < index {
            queue::relax(words, nodes, to + index - 1, from.charge, from.steps);
        }
    } else {
        queue::relax(words, nodes, to + index, from.charge, from.steps);
        if index == 0 {
            let new = to + region.top() + 1;
            queue::relax(words, nodes, new, rate + from.charge, from.steps);
        }
    }
}

// The edges of delay and linger. Delay: "Allowed if the new region meets the mode's conditions and every ceiling." The mode's row has both.
fn relax_waits(words: &mut [u32], corners: &CornerGraph, from: Source)
    requires { EdgesReadyIn corners.now from words.old × Short corners.now.space from }
    ensures { EdgesDoneIn IsWait corners.now from words.old words.new }
{
    let space = corners.space;
    let at = from.at;
    let rate = corners.table.rate(at.mode) as u32;
    let delayed = at.region.delay(0);
    // Where r0 is empty a delay takes a corner away.
    let empty = delayed.top() < at.region.top();
    relax_linger(words, space.nodes, from, empty, rate);
    if !rules::all_inside(corners.rules, at.mode, delayed.halves()) {
        return;
    }
    let to = nodes::node_of(at.mode, delayed, 0, space.ceilings);
    relax_delay(words, space.nodes, from, to, empty, rate);
}

// The corner of a node in mode 0, if the node is in that mode and a mode has so many. The unit's core multiplies in 32 bits.
fn in_mode_0(node: usize, mode: usize, block: usize) -> usize
    requires { (node < 65536) × (mode < 16) × (block < 65536) × (mode * block ≤ node) }
    ensures { result + mode * block ≡ node }
{
    node - (mode as u32 * block as u32) as usize
}

// The node of mode 0 to which the resets of a byte lead from a corner of the region.
fn image_of(space: Space, at: NodeRegion, resets: u8) -> usize
    requires { ImageReady space at resets }
    ensures { result ≡ image_of space at (named_timers resets) }
{
    // Where no timer is reset the corner stays the same.
    if resets % 8 == 0 {
        return in_mode_0(at.first + at.index, at.mode, space.block);
    }
    let region = at.region;
    let ceilings = space.ceilings;
    let moved = region.reset_all(resets);
    let corner = moves::last_at_most(moved.prices(), moved.top(), at.index);
    nodes::node_of(0, moved, corner, ceilings)
}

// It is found once for each reset byte. There are eight of them. `steps` has the same for images of another kind: no clause can speak of both, since it
// would range over predicates.
fn image(images: &mut [u32; 8], space: Space, at: NodeRegion, resets: u8) -> usize
    requires { ImageReady space at resets × Images (NodeImage space at) images.old }
    ensures { ImageDone (NodeImage space at) resets images.new result }
{
    let k = (resets % 8) as usize;
    if images[k] == moves::NO_IMAGE {
        images[k] = image_of(space, at, resets) as u32;
    }
    images[k] as usize
}

// The edges of moves.
fn relax_moves(words: &mut [u32], corners: &CornerGraph, from: Source)
    requires { EdgesReadyIn corners.now from words.old × Short corners.now.space from }
    ensures { EdgesDoneIn IsMove corners.now from words.old words.new }
{
    let at = from.at;
    let halves = at.region.halves();
    // The unit's core multiplies in 32 bits.
    let block = corners.space.block as u32;
    let mut images = [moves::NO_IMAGE; 8];
    let mut next = moves::next_move(corners.rules, halves, rules::first(corners.rules, at.mode));
    while let Some(e) = next {
        let target = corners.table.target(e) as u32;
        let resets = corners.table.resets(e);
        let to = image(&mut images, corners.space, at, resets) + (target * block) as usize;
        let charge = corners.table.price(e) as u32 + from.charge;
        queue::relax(words, corners.space.nodes, to, charge, from.steps);
        next = moves::next_move(corners.rules, halves, rules::after(corners.rules, e));
    }
}
