// The walk along what a search found, which writes the pairs. A pair is one number here, its label: 64 × its minutes and its move.
ghost use Rattle.std.specs.Prelude.{◌≡◌, ◌/◌, ◌<◌, ◌≤◌};
ghost use Rattle.timetable.specs.Steps.{TightRoom, Tells, MoveReady, MoveDone, AfterReady, AfterDone, NextReady, NextDone};
ghost use Rattle.timetable.specs.Walk.{AdvanceReady, Advanced, BacktrackReady, Backtracked, WalkReady, WalkDone};

use minutes::graph::MinuteGraph;
use minutes::waits::Source;
use minutes::{START, waits};
use near::INFINITY;
use space::moves;

// A label counts this much for each minute.
const MINUTE: u32 = 64;

// Where the walk stands: a node, the number of pairs that led to it, and the first label that was not tried there.
#[derive(Clone, Copy)]
pub struct Stand {
    pub node: usize,
    pub depth: usize,
    pub label: u32,
}

// A move and the node to which it leads.
#[derive(Clone, Copy)]
pub struct Step {
    pub made: usize,
    pub node: usize,
}

// A pair and the node to which it leads.
#[derive(Clone, Copy)]
pub struct Next {
    pub label: u32,
    pub node: usize,
}

// Whether a node is reached at this cost.
fn reached_at(words: &[u32], node: usize, charge: u32, pairs: u32) -> bool
    requires { TightRoom node words.now }
    ensures { Tells words.now node charge pairs result }
{
    words[2 * node] == charge && words[2 * node + 1] == pairs
}

// The first of the moves of a state, from `first` on, whose edge is tight: by the words its end is reached along it.
fn tight_move(words: &[u32], minutes: &MinuteGraph, from: Source, first: usize) -> Option<Step>
    requires { MoveReady minutes.now.table.now.bytes minutes.now.states from first words.now }
    ensures { MoveDone minutes.now.table.now.bytes minutes.now.states from first words.now result }
{
    let values = from.at.values;
    let halves = states::halves(values);
    let mut next = steps::move_from(minutes.rules, halves, from.at.mode, first);
    while let Some(e) = next {
        let node = states::lead(minutes.states, minutes.table, values, e);
        let charge = minutes.table.price(e) as u32 + from.charge;
        if reached_at(words, node, charge, from.pairs) {
            return Some(Step { made: e, node });
        }
        next = moves::next_move(minutes.rules, halves, rules::after(minutes.rules, e));
    }
    None
}

// The same after the wait of a label, from its move on.
fn tight_after(words: &[u32], minutes: &MinuteGraph, from: Source, label: u32) -> Option<Step>
    requires { AfterReady minutes.now.table.now.bytes minutes.now.states from label words.now }
    ensures { AfterDone minutes.now.table.now.bytes minutes.now.states from label words.now result }
{
    let later = waits::wait(minutes, from, (label / MINUTE) as u8);
    if waits::stays(minutes.rules, later.at) {
        return tight_move(words, minutes, later, (label % MINUTE) as usize);
    }
    None
}

// The first pair that was not tried whose edge is tight.
fn next_pair(words: &[u32], minutes: &MinuteGraph, stand: Stand) -> Option<Next>
    requires { NextReady minutes.now.states stand words.now }
    ensures { NextDone minutes.now.table.now.bytes stand words.now result }
{
    let states = minutes.states;
    let at = states::state_at(states, stand.node);
    let longest = (states.ceilings[0] - at.values[0]) as u32;
    let from = Source {
        at,
        charge: words[2 * stand.node],
        pairs: stand.depth as u32 + 1,
    };
    // The first label may stand within a minute: a range of waits would have to carry the label beside it.
    let mut label = stand.label;
    while label / MINUTE <= longest {
        let wait = label - label % MINUTE;
        if let Some(step) = tight_after(words, minutes, from, label) {
            return Some(Next {
                label: wait + step.made as u32,
                node: step.node,
            });
        }
        label = wait + MINUTE;
    }
    None
}

// Takes the pair. The node at hand goes onto a stack, which stands behind the words of the states.
fn advance(words: &mut [u32], route: &mut [u8], count: usize, stand: Stand, next: Next) -> Stand
    requires { AdvanceReady count stand next words.old route.old }
    ensures { Advanced count stand next words.old route.old words.new route.new result }
{
    let depth = stand.depth;
    words[2 * count + depth] = stand.node as u32;
    route[2 * depth] = (next.label / MINUTE) as u8;
    route[2 * depth + 1] = (next.label % MINUTE) as u8;
    Stand {
        node: next.node,
        depth: depth + 1,
        label: 0,
    }
}

// Takes the last pair back: the node at hand is left for good.
fn backtrack(words: &mut [u32], route: &[u8], count: usize, stand: Stand) -> Stand
    requires { BacktrackReady count stand words.old route.now }
    ensures { Backtracked count stand words.old route.now words.new result }
{
    words[2 * stand.node] = INFINITY;
    let depth = stand.depth - 1;
    Stand {
        node: words[2 * count + depth] as usize,
        depth,
        label: MINUTE * route[2 * depth] as u32 + route[2 * depth + 1] as u32 + 1,
    }
}

// "take the fewest pairs, then the first in byte order": goes on by the least pair whose edge is tight, and a pair back where there is none.
pub fn walk(words: &mut [u32], route: &mut [u8], minutes: &MinuteGraph)
    requires { WalkReady minutes.now.table.now.bytes words.old route.old }
    ensures { WalkDone minutes.now.table.now.bytes words.old route.old words.new route.new }
{
    let goal = minutes.table.goal();
    let states = minutes.states;
    let mut stand = Stand {
        node: START,
        depth: 0,
        label: 0,
    };
    while space::mode_of(stand.node, states.cells) != goal {
        if let Some(next) = next_pair(words, minutes, stand) {
            stand = advance(words, route, states.count, stand, next);
        } else {
            stand = backtrack(words, route, states.count, stand);
        }
    }
}
