// The edges of a state, relaxed one after another: each is a pair, some minutes and then a move.
ghost use Rattle.minutes.specs.Edges.{AnyPair, OfMinute, PairsReadyIn, PairsDoneIn, MinuteReadyIn, MovesReadyIn, MovesDoneIn};

use crate::graph::MinuteGraph;
use crate::waits;
use crate::waits::Source;
use space::moves;

// Relaxes the pairs of a state. No wait goes beyond the ceiling of timer 0. A cost of as many pairs as there are states is not offered: no least cost has
// so many.
pub fn relax_pairs(words: &mut [u32], minutes: &MinuteGraph, from: Source)
    requires { PairsReadyIn minutes.now from words.old }
    ensures { PairsDoneIn AnyPair minutes.now from words.old words.new }
{
    if minutes.states.count <= from.pairs as usize {
        return;
    }
    let longest = minutes.states.ceilings[0] - from.at.values[0];
    for wait in 0..=longest {
        relax_minute(words, minutes, from, wait);
    }
}

// Those that wait so many minutes, if the mode allows that.
fn relax_minute(words: &mut [u32], minutes: &MinuteGraph, from: Source, wait: u8)
    requires { MinuteReadyIn minutes.now from wait words.old }
    ensures { PairsDoneIn (OfMinute wait) minutes.now from words.old words.new }
{
    let later = waits::wait(minutes, from, wait);
    if waits::stays(minutes.rules, later.at) {
        relax_moves(words, minutes, later);
    }
}

// The moves of a state in which some minutes were waited.
fn relax_moves(words: &mut [u32], minutes: &MinuteGraph, from: Source)
    requires { MovesReadyIn minutes.now from words.old }
    ensures { MovesDoneIn minutes.now from words.old words.new }
{
    let states = minutes.states;
    let values = from.at.values;
    let halves = states::halves(values);
    let mut next = moves::next_move(
        minutes.rules,
        halves,
        rules::first(minutes.rules, from.at.mode),
    );
    while let Some(e) = next {
        let to = states::lead(states, minutes.table, values, e);
        let charge = minutes.table.price(e) as u32 + from.charge;
        queue::relax(words, states.count, to, charge, from.pairs);
        next = moves::next_move(minutes.rules, halves, rules::after(minutes.rules, e));
    }
}
