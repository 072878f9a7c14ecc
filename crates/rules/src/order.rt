// The moves of each mode, one after another.
ghost use Rattle.std.specs.Prelude.{◌≡◌, ℕ, ◌<◌, ◌≤◌, length};
ghost use Rattle.table.specs.Held.{automaton_of, IsTable};
ghost use Rattle.rules.specs.Rules.{first_of, none};
ghost use Rattle.rules.specs.Making.{Wrote, OrderedFrom};

use crate::{AFTER, FIRST, NONE, RULES};
use table::Table;

// No move is the first one of a mode.
pub fn no_moves(rules: &mut [u8; RULES], modes: usize)
    requires { modes ≤ 16 }
    ensures { Wrote (λ m. none) 480 modes rules.old rules.new }
{
    rules[FIRST..FIRST + modes].fill(NONE);
}

// From the last move on, each is put before those of its mode.
#[tactic(auto, using(crate::proofs::Ordering::source_few))]
pub fn order(table: &Table, rules: &mut [u8; RULES])
    requires { (m : ℕ) → m < length (automaton_of table.now.bytes).modes → first_of rules.old m ≡ none }
    ensures { OrderedFrom (automaton_of table.now.bytes) 0 rules.old rules.new }
{
    for e in (0..table.moves()).rev() {
        let mode = table.source(e);
        rules[AFTER + e] = rules[FIRST + mode];
        rules[FIRST + mode] = e as u8;
    }
}
