// Layer 3: the search for a timetable, over the states of a table in whole minutes.
#![tactic(auto)]

ghost use Rattle.minutes.specs.Edges.{rooted_of};
ghost use Rattle.minutes.specs.Laws.Searchable.{goal-searchable};

mod edges;
pub mod graph;
pub mod waits;

use crate::graph::MinuteGraph;
use crate::waits::Source;
use near::Cost;
use search::graph::Graph;

// The start: mode 0 with every timer at 0.
pub const START: usize = 0;

// The graph with a mode whose states are the targets of a search.
#[derive(Drop)]
pub struct ToGoal<'a> {
    pub minutes: MinuteGraph<'a>,
    pub goal: usize,
}

impl Graph for ToGoal<'_> {
    ghost rooted = { λ g. rooted_of g.minutes.table.now.bytes g.goal };

    ghost searchable = { λ g. goal-searchable g.minutes.setting g.goal };

    fn nodes(&self) -> usize {
        self.minutes.states.count
    }

    fn start(&self) -> usize {
        START
    }

    fn visit(&self, words: &mut [u32], node: usize, cost: Cost) -> bool {
        let at = states::state_at(self.minutes.states, node);
        if at.mode == self.goal {
            return true;
        }
        let from = Source {
            at,
            charge: cost.charge,
            pairs: cost.steps + 1,
        };
        edges::relax_pairs(words, &self.minutes, from);
        false
    }
}
