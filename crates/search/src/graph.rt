// The search of any graph in Dijkstra's order, from its start as far as the nearest of its targets.
ghost use Rattle.std.specs.Prelude.{◌≡◌, ◌*◌, ◌≤◌, length};
ghost use Rattle.search.specs.Exploring.{Rooted};
ghost use Rattle.search.specs.Searches.{Searchable, VisitReady, Visited, FindReady, FoundTarget, SearchDone};

use crate::words;
use near::Cost;

// A graph as a search goes through it. Its nodes have numbers; each is a target, or has edges.
pub trait Graph {
    // What it is, and the node at which its ways begin.
    ghost rooted: { Self → Rooted };

    // No charge on a way comes to infinity.
    ghost searchable: { (g : Self) → Searchable (rooted g) };

    // How many nodes there are.
    fn nodes(&self) -> usize
        ensures { result ≡ (rooted self.now).graph.nodes };

    // The node at which its ways begin.
    fn start(&self) -> usize
        ensures { result ≡ (rooted self.now).start };

    // Whether the node that is the first of the queue, at this cost, is a target. If it is not, its edges are relaxed.
    fn visit(&self, words: &mut [u32], node: usize, cost: Cost) -> bool
        requires { VisitReady (rooted self.now) node cost words.old }
        ensures { Visited (rooted self.now) node words.old words.new result };
}

// Finds the least charge and number of steps from the start to every node that is as near as the nearest target, and gives that target's.
pub fn search<G: Graph>(words: &mut [u32], graph: &G) -> Option<Cost>
    requires { 2 * (G.rooted graph.now).graph.nodes ≤ length words.old }
    ensures { SearchDone (G.rooted graph.now) words.old words.new result }
{
    let nodes = graph.nodes();
    words::seed(words, nodes, graph.start());
    let best = settle_all(words, graph);
    words::keep_near(words, nodes, best);
    best
}

// Settles the nodes in the order of their costs up to the first target, whose cost it gives.
fn settle_all<G: Graph>(words: &mut [u32], graph: &G) -> Option<Cost>
    requires { FindReady (G.rooted graph.now) words.old }
    ensures { FoundTarget (G.rooted graph.now) words.old words.new result }
{
    while let Some(node) = queue::first(words) {
        let cost = Cost {
            charge: queue::charge_of(words, node),
            steps: queue::steps_of(words, node),
        };
        if graph.visit(words, node, cost) {
            return Some(cost);
        }
        // It is settled last: until then no node that is lowered goes up beyond it.
        queue::settle(words, graph.nodes(), node);
    }
    None
}
