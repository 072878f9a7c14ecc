// Layer 3: the search for the least charge into a goal mode.
#![tactic(auto)]

ghost use Rattle.std.specs.Prelude.{◌≡◌, length};
ghost use Rattle.table.specs.Held.{automaton_of};
ghost use Rattle.rules.specs.Rules.{IsRules};
ghost use Rattle.search.specs.Outcome.{told, nodes_of, answered, searched, cleared};

mod edges;
pub mod graph;
mod to_goal;
mod words;

use crate::to_goal::ToGoal;
use regions::nodes;
use rules::RULES;
use space::graph::CornerGraph;
use table::Table;
use table::refusals::Refusal;

// E, unless it is above 65,536. No memory is lent and no search is made.
pub fn nodes_of(table: &Table) -> Result<usize, Refusal>
    ensures { told result ≡ nodes_of (automaton_of table.now.bytes) }
{
    nodes::node_count(table).ok_or(Refusal::TooManyNodes)
}

// E, unless so many words are too few besides.
pub fn room(table: &Table, lent: usize) -> Result<usize, Refusal>
    ensures { told result ≡ answered (automaton_of table.now.bytes) lent }
{
    let nodes = nodes_of(table)?;
    if lent < 2 * nodes {
        return Err(Refusal::TooFewWords);
    }
    Ok(nodes)
}

// Finds the least charge and number of steps from the start to every corner that is as near as the goal. Gives the number of nodes whose words it used.
pub fn search(
    words: &mut [u32],
    table: &Table,
    rules: &[u8; RULES],
    goal: usize,
) -> Result<usize, Refusal>
    requires { IsRules table.now.bytes rules.now }
    ensures answer { told result ≡ answered (automaton_of table.now.bytes) (length words.old) }
    ensures words { words.new ≡ searched (automaton_of table.now.bytes) goal words.old }
{
    let nodes = room(table, words.len())?;
    let space = space::space_of(table);
    let corners = CornerGraph {
        space,
        table,
        rules,
    };
    graph::search(words, &ToGoal { corners, goal });
    Ok(nodes)
}

// Zeroes the words that a search used.
pub fn clear(words: &mut [u32], table: &Table)
    ensures { words.new ≡ cleared (automaton_of table.now.bytes) words.old }
{
    if let Ok(nodes) = room(table, words.len()) {
        words[..2 * nodes].fill(0);
    }
}
