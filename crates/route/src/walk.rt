// The walk along what a search found, which writes the route.
ghost use Rattle.std.specs.Prelude.{◌≡◌, ◌/◌, ◌<◌, ◌≤◌};
ghost use Rattle.route.specs.Walk.{lowest, PruneRoom, Pruned, AdvanceReady, Advanced, BacktrackReady, Backtracked, WalkReady, WalkDone};

use near::INFINITY;
use space::graph::CornerGraph;
use steps::{Next, Stand};

// A second word from here on points back: it holds the first node and the marked corners of the place before. No node has as many steps.
const BACK: u32 = 0x8000_0000;

// Of the steps from a place that of move 0 is tried first.
const LEAST_BYTE: usize = 0;

// The lowest marked corner, of a set that has one.
fn lowest(set: u32) -> usize
    ensures { result ≡ lowest set }
{
    (0..3).find(|&j| steps::marked(set, j)).unwrap_or(3)
}

// The marked corners of a place become unreached.
fn prune(words: &mut [u32], first: usize, set: u32)
    requires { PruneRoom first set words.old }
    ensures { Pruned first set words.old words.new }
{
    for j in 0..4 {
        if steps::marked(set, j) {
            words[2 * (first + j)] = INFINITY;
        }
    }
}

// Takes the step. The place at hand is noted at the next one's lowest marked corner, whose steps are known there: they are its depth.
fn advance(words: &mut [u32], stand: Stand, next: Next) -> Stand
    requires { AdvanceReady stand next words.old }
    ensures { Advanced stand next words.old words.new result }
{
    let corner = next.first + lowest(next.set);
    words[2 * corner + 1] = BACK + stand.set * 65536 + stand.first as u32;
    Stand {
        first: next.first,
        set: next.set,
        steps: stand.steps + 1,
        byte: LEAST_BYTE,
    }
}

// Takes the last step back, whose byte is given: the place at hand is left for good.
fn backtrack(words: &mut [u32], stand: Stand, byte: u8) -> Stand
    requires { BacktrackReady stand words.old }
    ensures { Backtracked stand byte words.old words.new result }
{
    let corner = stand.first + lowest(stand.set);
    let pointer = words[2 * corner + 1];
    prune(words, stand.first, stand.set);
    Stand {
        first: (pointer % 65536) as usize,
        set: pointer / 65536 % 16,
        steps: stand.steps - 1,
        byte: usize::from(byte) + 1,
    }
}

// "the route is one with fewest steps; among those the first in byte order": goes on by the least byte along whose step a tight edge leads, and a step
// back where none does.
pub fn walk(words: &mut [u32], route: &mut [u8], corners: &CornerGraph)
    requires { WalkReady corners.now.table.now.bytes corners.now.rules.now corners.now.space words.old route.old }
    ensures { WalkDone corners.now.table.now.bytes words.old route.old words.new route.new }
{
    let goal = corners.table.goal();
    let mut stand = Stand {
        first: space::start_node(corners.space),
        set: 1,
        steps: 0,
        byte: LEAST_BYTE,
    };
    while space::mode_of(stand.first, corners.space.block) != goal {
        let depth = stand.steps as usize;
        if let Some(next) = steps::next_step(words, corners, stand) {
            route[depth] = next.byte as u8;
            stand = advance(words, stand, next);
        } else {
            stand = backtrack(words, stand, route[depth - 1]);
        }
    }
}
