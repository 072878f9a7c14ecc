// The graph of a table's corners, as the search goes through it.
ghost use Rattle.search.specs.Edges.{rooted_of};
ghost use Rattle.search.specs.Laws.Searchable.{goal-searchable};

use crate::edges;
use crate::edges::Source;
use crate::graph::Graph;
use near::Cost;
use regions::nodes;
use space::graph::CornerGraph;

// With a mode whose nodes are the targets.
#[derive(Drop)]
pub struct ToGoal<'a> {
    pub corners: CornerGraph<'a>,
    pub goal: usize,
}

impl Graph for ToGoal<'_> {
    ghost rooted = { λ g. rooted_of g.corners.table.now.bytes g.goal };

    ghost searchable = { λ g. goal-searchable g.corners.setting g.goal };

    fn nodes(&self) -> usize {
        self.corners.space.nodes
    }

    fn start(&self) -> usize {
        space::start_node(self.corners.space)
    }

    fn visit(&self, words: &mut [u32], node: usize, cost: Cost) -> bool {
        let space = self.corners.space;
        let at = nodes::region_at(space.timers, space.ceilings, node);
        if at.mode == self.goal {
            return true;
        }
        let from = Source {
            at,
            charge: cost.charge,
            steps: cost.steps + 1,
        };
        edges::relax_edges(words, &self.corners, from);
        false
    }
}
