// Whether a table has no condition < or >.
#![tactic(auto)]

ghost use Rattle.std.specs.Prelude.{◌≡◌, ◌∷◌, [], ◌≤◌, take};
ghost use Rattle.semantics.specs.Closed.{all_closed, closed_table};
ghost use Rattle.table.specs.Meaning.{conditions_from};
ghost use Rattle.table.specs.Held.{automaton_of};
ghost use Rattle.closed.specs.Closed.{rows_closed};

use conditions::comparison::Comparison;
use table::{GUARD, INVARIANT, MODE_RECORDS, MODE_STRIDE, MOVE_RECORDS, MOVE_STRIDE, Table};

// The condition bytes of a record.
const ROW: usize = 6;

// Whether a table is closed: document 02, N5, "12 for a table with < or >".
pub fn is_closed(table: &Table) -> bool
    ensures { result ≡ closed_table (automaton_of table.now.bytes) }
{
    let modes = &table.bytes[MODE_RECORDS + INVARIANT..];
    let moves = &table.bytes[MOVE_RECORDS + GUARD..];
    rows_closed(modes, MODE_STRIDE, table.modes()) && rows_closed(moves, MOVE_STRIDE, table.moves())
}

// Whether the conditions of so many records, of so many bytes each, are closed. The bytes begin with those of the first one.
fn rows_closed(bytes: &[u8], stride: usize, count: usize) -> bool
    requires { 6 ≤ stride }
    ensures { result ≡ rows_closed stride count bytes.now }
{
    bytes.chunks(stride).take(count).all(row_closed)
}

// Whether the six conditions with which the bytes begin are.
fn row_closed(bytes: &[u8]) -> bool
    ensures { result ≡ all_closed (conditions_from 0 (take 6 bytes.now)) }
{
    bytes.iter().take(ROW).all(|&byte| closed_byte(byte))
}

// Whether a condition byte is, or 0 for none.
fn closed_byte(byte: u8) -> bool
    ensures { result ≡ all_closed (conditions_from 0 (byte ∷ [])) }
{
    if byte == 0 {
        return true;
    }
    match Comparison::from(byte / 16) {
        Comparison::Less | Comparison::Greater => false,
        Comparison::AtMost | Comparison::Equal | Comparison::AtLeast => true,
    }
}
