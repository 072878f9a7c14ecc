// Waiting in a state: the state some minutes later, and whether its mode allows it.
ghost use Rattle.minutes.specs.Waits.{WaitReady, WaitDone, StaysReady, StaysDone};

use crate::graph::MinuteGraph;
use rules::RULES;
use states::State;

// A state, what has been charged there, and the pairs with which its edges arrive.
#[derive(Clone, Copy)]
pub struct Source {
    pub at: State,
    pub charge: u32,
    pub pairs: u32,
}

// A state some minutes later, and what has been charged then.
pub fn wait(graph: &MinuteGraph, from: Source, minutes: u8) -> Source
    requires { WaitReady graph.now.table.now.bytes from minutes }
    ensures { WaitDone graph.now.table.now.bytes from minutes result }
{
    let at = from.at;
    let rate = graph.table.rate(at.mode) as u32;
    Source {
        at: State {
            mode: at.mode,
            values: states::waited(at.values, graph.states.timers, minutes),
        },
        charge: minutes as u32 * rate + from.charge,
        pairs: from.pairs,
    }
}

// Whether a state stays in its mode. The mode's row has its conditions and the ceilings.
pub fn stays(rules: &[u8; RULES], at: State) -> bool
    requires { StaysReady rules.now at }
    ensures { StaysDone rules.now at result }
{
    rules::all_inside(rules, at.mode, states::halves(at.values))
}
