// Layer 4: the call that gives the timetable of a table.
#![tactic(auto)]

ghost use Rattle.std.specs.Prelude.{◌≡◌};
ghost use Rattle.table.specs.Held.{automaton_of};
ghost use Rattle.timetable.specs.Answers.{told_timetable};
ghost use Rattle.timetable.specs.Timetabled.{outcome, timetabled_table, timetabled};
ghost use Rattle.timetable.specs.Promise.{KeepsTimetable};
ghost use Rattle.timetable.specs.Found.{FindReady, ReadOff};

mod walk;

use minutes::ToGoal;
use minutes::graph::MinuteGraph;
use near::Cost;
use rules::RULES;
use search::graph;
use table::refusals::Refusal;
use table::{SIZE, Table};

// Gives the timetable of the table that the bytes are, with the memory lent for the search and for the pairs: its charge and its number of pairs, which are
// steps here, if there is one.
pub fn timetable(bytes: &[u8], words: &mut [u32], route: &mut [u8]) -> Result<Option<Cost>, Refusal>
    ensures outcome { outcome (told_timetable result) words.new route.new
        ≡ timetabled bytes.now words.old route.old }
    ensures promise { KeepsTimetable bytes.now words.old route.new (told_timetable result) }
{
    let mut held = [0; SIZE];
    reader::read(bytes, &mut held)?;
    let table = Table { bytes: held };
    timetable_of(words, route, &table)
}

// That of a table that was read. 12 comes "directly after 7".
fn timetable_of(words: &mut [u32], route: &mut [u8], table: &Table) -> Result<Option<Cost>, Refusal>
    ensures { outcome (told_timetable result) words.new route.new
        ≡ timetabled_table (automaton_of table.now.bytes) words.old route.old }
{
    if !closed::is_closed(table) {
        return Err(Refusal::NotClosed);
    }
    search::room(table, words.len())?;
    let answer = find(words, route, table);
    search::clear(words, table);
    answer
}

// Searches for it, and writes its pairs.
fn find(words: &mut [u32], route: &mut [u8], table: &Table) -> Result<Option<Cost>, Refusal>
    requires { FindReady table.now.bytes words.old }
    ensures { ReadOff table.now.bytes words.old route.old words.new route.new (told_timetable result) }
{
    let mut rules = [0u8; RULES];
    rules::make(table, &mut rules);
    let states = states::states_of(table);
    let goal = ToGoal {
        minutes: MinuteGraph {
            states,
            table,
            rules: &rules,
        },
        goal: table.goal(),
    };
    let Some(cost) = graph::search(words, &goal) else {
        return Ok(None);
    };
    // "Refusal 10 compares the bytes of all pairs with the route memory."
    if route.len() < 2 * cost.steps as usize {
        return Err(Refusal::RouteTooLong);
    }
    walk::walk(words, route, &goal.minutes);
    Ok(Some(cost))
}
