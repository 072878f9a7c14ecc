// Layer 4: the call that plans a table, and the one that says how much to lend for it.
#![tactic(auto)]

ghost use Rattle.std.specs.Prelude.{◌≡◌, length};
ghost use Rattle.table.specs.Held.{automaton_of};
ghost use Rattle.route.specs.Answers.{told};
ghost use Rattle.route.specs.Plan.{outcome, planned_table, planned};
ghost use Rattle.route.specs.Promise.{KeepsDemand};
ghost use Rattle.route.specs.Found.{Found, ReadOff};
ghost use Rattle.route.specs.Lend.{told_needs, needed_table, needed, Enough};

mod walk;

use near::Cost;
use rules::RULES;
use space::graph::CornerGraph;
use table::refusals::Refusal;
use table::{SIZE, Table};

// How many words and route bytes are enough for planning.
#[derive(Clone, Copy, Debug, PartialEq, Eq)]
pub struct Memory {
    pub words: usize,
    pub route: usize,
}

// Plans the table that the bytes are, with the memory lent for the search and for the route. Gives the route's charge and number of steps, if there is a
// route.
pub fn plan(bytes: &[u8], words: &mut [u32], route: &mut [u8]) -> Result<Option<Cost>, Refusal>
    ensures outcome { outcome (told result) words.new route.new
        ≡ planned bytes.now words.old route.old }
    ensures demand { KeepsDemand bytes.now (length words.old) route.new (told result) }
{
    let mut held = [0; SIZE];
    reader::read(bytes, &mut held)?;
    let table = Table { bytes: held };
    plan_table(words, route, &table)
}

// Plans a table that was read.
fn plan_table(words: &mut [u32], route: &mut [u8], table: &Table) -> Result<Option<Cost>, Refusal>
    ensures { outcome (told result) words.new route.new
        ≡ planned_table (automaton_of table.now.bytes) words.old route.old }
{
    let mut rules = [0u8; RULES];
    rules::make(table, &mut rules);
    let nodes = search::search(words, table, &rules, table.goal())?;
    let answer = read_route(words, route, table, &rules, nodes);
    search::clear(words, table);
    answer
}

// How much to lend for planning the table that the bytes are. No search is made.
pub fn lend(bytes: &[u8]) -> Result<Memory, Refusal>
    ensures needs { told_needs result ≡ needed bytes.now }
    ensures promise { Enough bytes.now (told_needs result) }
{
    let mut held = [0; SIZE];
    reader::read(bytes, &mut held)?;
    let table = Table { bytes: held };
    memory_of(&table)
}

// How much to lend for a table that was read.
fn memory_of(table: &Table) -> Result<Memory, Refusal>
    ensures { told_needs result ≡ needed_table (automaton_of table.now.bytes) }
{
    let nodes = search::nodes_of(table)?;
    Ok(Memory {
        words: 2 * nodes,
        route: nodes - 1,
    })
}

// Reads the answer off the words of a search, and writes the route.
fn read_route(
    words: &mut [u32],
    route: &mut [u8],
    table: &Table,
    rules: &[u8; RULES],
    nodes: usize,
) -> Result<Option<Cost>, Refusal>
    requires { Found table.now.bytes rules.now nodes words.old }
    ensures { ReadOff table.now.bytes words.old route.old words.new route.new (told result) }
{
    let Some(cost) = near::best(words, nodes, table.goal(), table.modes()) else {
        return Ok(None);
    };
    if route.len() < cost.steps as usize {
        return Err(Refusal::RouteTooLong);
    }
    let space = space::space_of(table);
    walk::walk(
        words,
        route,
        &CornerGraph {
            space,
            table,
            rules,
        },
    );
    Ok(Some(cost))
}
