// The rows of windows, made of the condition bytes that stand in the records of a table, and of its ceilings.
ghost use Rattle.std.specs.Prelude.{◌≡◌, ℕ, ◌+◌, ◌*◌, ◌<◌, ◌≤◌, length, get_or, take, drop};
ghost use Rattle.table.specs.Held.{automaton_of, IsTable};
ghost use Rattle.rules.specs.Making.{condition_bytes, FilledRows, JoinedRow, JoinedRows, CappedRow, CappedRows, Wrote};

use crate::{GUARDS, RULES, window};
use conditions::windows::{ROW, capped, joined_high, joined_low, windows};
use table::{MOST_TIMERS, SIZE, Table};

// For each of so many records, of so many bytes each, whose conditions stand from `at` on, the windows: in the rows from `row` on.
pub fn fill(
    table: &[u8; SIZE],
    at: usize,
    stride: usize,
    count: usize,
    rules: &mut [u8; RULES],
    row: usize,
)
    requires { (row + count ≤ 80) × (stride ≤ 12)
        × ((k : ℕ) → k < count → at + stride * k + 6 ≤ 904) }
    ensures { FilledRows (condition_bytes table.now at stride) count row rules.old rules.new }
{
    for i in 0..count {
        // The unit's core multiplies in 32 bits.
        let record = at + (stride as u32 * i as u32) as usize;
        put(rules, row + i, windows(conditions(table, record)));
    }
}

// To the row of each move that of its target is joined, so that one test of the move's row tells whether both let the move pass.
pub fn join(table: &Table, rules: &mut [u8; RULES])
    ensures { JoinedRows (automaton_of table.now.bytes) (length (automaton_of table.now.bytes).moves) rules.old rules.new }
{
    let moves = table.moves();
    for e in 0..moves {
        join_row(rules, GUARDS + e, table.target(e), table.resets(e));
    }
}

// Joins the target's row to one, timer by timer. The byte names the timers that are reset.
fn join_row(rules: &mut [u8; RULES], row: usize, target: usize, resets: u8)
    requires { (target < row) × (row < 80) }
    ensures { JoinedRow resets row target 3 rules.old rules.new }
{
    for timer in 0..MOST_TIMERS {
        let reset = (resets >> timer) % 2 == 1;
        let at = 2 * window(row, timer);
        let from = 2 * window(target, timer);
        let low = joined_low(reset, rules[at], rules[from]);
        let high = joined_high(reset, rules[at + 1], rules[from], rules[from + 1]);
        rules[at] = low;
        rules[at + 1] = high;
    }
}

// The windows of each mode's row end above the ceilings, so that one test of the row tells whether a delay is allowed.
pub fn cap(table: &Table, rules: &mut [u8; RULES], modes: usize)
    requires { (modes ≤ 16) }
    ensures { CappedRows (automaton_of table.now.bytes).ceilings modes rules.old rules.new }
{
    let ceilings = table.ceilings();
    for mode in 0..modes {
        cap_row(rules, mode, ceilings);
    }
}

// Ends a row's windows above the ceilings, timer by timer.
fn cap_row(rules: &mut [u8; RULES], row: usize, ceilings: [u8; MOST_TIMERS])
    requires { (row < 80) × ((i : ℕ) → get_or ceilings i 0 ≤ 15) }
    ensures { CappedRow ceilings row 3 rules.old rules.new }
{
    for timer in 0..MOST_TIMERS {
        let at = 2 * window(row, timer) + 1;
        rules[at] = capped(rules[at], ceilings[timer]);
    }
}

// Six bytes of a table.
fn conditions(table: &[u8; SIZE], at: usize) -> [u8; ROW]
    requires { (at + 6 ≤ 904) }
    ensures { result ≡ take 6 (drop at table.now) }
{
    let mut bytes = [0; ROW];
    bytes.copy_from_slice(&table[at..at + ROW]);
    bytes
}

// Writes a row.
fn put(rules: &mut [u8; RULES], row: usize, bytes: [u8; ROW])
    requires { (row < 80) }
    ensures { Wrote (λ i. get_or bytes i 0) (6 * row) 6 rules.old rules.new }
{
    let at = 2 * window(row, 0);
    rules[at..at + ROW].copy_from_slice(&bytes);
}
