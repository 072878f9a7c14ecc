// Whether a table's start is allowed.
ghost use Rattle.std.specs.Prelude.{◌≡◌, ◌∷◌, [], take, drop};
ghost use Rattle.semantics.specs.Condition.{hold_at_zero};
ghost use Rattle.table.specs.Meaning.{conditions_from};

use crate::CONDITIONS;
use conditions::comparison::Comparison;
use table::{INVARIANT, MODE_RECORDS, SIZE};

// Whether a condition byte, or 0 for none, holds of a timer at 0.
fn holds_at_zero(condition: u8) -> bool
    ensures { result ≡ hold_at_zero (conditions_from 0 (condition ∷ [])) }
{
    if condition == 0 {
        return true;
    }
    let value = condition % 16;
    match Comparison::from(condition / 16) {
        Comparison::Less => 0 < value,
        Comparison::AtMost => true,
        Comparison::Equal | Comparison::AtLeast => value == 0,
        Comparison::Greater => false,
    }
}

// Whether the first mode's conditions hold with every timer at 0.
pub fn start_holds(table: &[u8; SIZE]) -> bool
    ensures { result ≡ hold_at_zero (conditions_from 0 (take 6 (drop 10 table.now))) }
{
    let first = MODE_RECORDS + INVARIANT;
    table[first..first + CONDITIONS]
        .iter()
        .all(|&condition| holds_at_zero(condition))
}
