// What a search looks at instead of a table's conditions: for each mode and move the window of each timer in half minutes, and the moves of each
// mode one after another.
#![tactic(auto)]

ghost use Rattle.std.specs.Prelude.{◌≡◌, true, ◌&&◌, ◌↔◌, ◌<◌, leb, ltb};
ghost use Rattle.table.specs.Held.{IsTable};
ghost use Rattle.rules.specs.Rules.{window_of, low_at, high_at, InRow, first_of, after_of, as_move, IsRules};

use table::{MOST_TIMERS, Table};

mod order;
mod rows;

// A row of windows for each of 16 modes and then for each of 64 moves. In a move's row those of its target are joined to its own, and in a mode's the
// ceilings.
// The row of move 0 is this one.
pub const GUARDS: usize = 16;

// Behind the rows the first move of each mode; and behind those, for each move, the next one from the same mode.
const FIRST: usize = 480;

const AFTER: usize = 496;

pub const RULES: usize = 560;

// The byte that names no move in memory, as `IsRules` has it.
const NONE: u8 = 64;

// Makes the rules of a table.
pub fn make(table: &Table, rules: &mut [u8; RULES])
    ensures { IsRules table.now.bytes rules.new }
{
    let modes = table.modes();
    let moves = table.moves();
    *rules = [0; RULES];
    rows::fill(
        &table.bytes,
        table::MODE_RECORDS + table::INVARIANT,
        table::MODE_STRIDE,
        modes,
        rules,
        0,
    );
    rows::fill(
        &table.bytes,
        table::MOVE_RECORDS + table::GUARD,
        table::MOVE_STRIDE,
        moves,
        rules,
        GUARDS,
    );
    rows::join(table, rules);
    rows::cap(table, rules, modes);
    order::no_moves(rules, modes);
    order::order(table, rules);
}

// The first move of a mode.
pub fn first(rules: &[u8; RULES], mode: usize) -> Option<usize>
    requires { mode < 16 }
    ensures { result ≡ as_move (first_of rules.now mode) }
{
    as_move(rules[FIRST + mode])
}

// The move after a move, from the same mode.
pub fn after(rules: &[u8; RULES], e: usize) -> Option<usize>
    requires { e < 64 }
    ensures { result ≡ as_move (after_of rules.now e) }
{
    as_move(rules[AFTER + e])
}

// Whether a timer that stands at a place is in its window of a row.
pub fn inside(rules: &[u8; RULES], row: usize, timer: usize, half: u8) -> bool
    requires { (row < 80) × (timer < 3) }
    ensures { result ≡ (leb (low_at rules.now row timer) half && ltb half (high_at rules.now row timer)) }
{
    let at = 2 * window(row, timer);
    (rules[at]..rules[at + 1]).contains(&half)
}

// Whether all timers are.
pub fn all_inside(rules: &[u8; RULES], row: usize, halves: [u8; MOST_TIMERS]) -> bool
    requires { row < 80 }
    ensures { (result ≡ true) ↔ InRow rules.now row halves }
{
    halves
        .iter()
        .enumerate()
        .all(|(timer, half)| inside(rules, row, timer, *half))
}

// The number of a timer's window, three to a row; a window has two bytes. The unit's core multiplies in 32 bits.
fn window(row: usize, timer: usize) -> usize
    requires { (row < 80) × (timer < 3) }
    ensures { result ≡ window_of row timer }
{
    (MOST_TIMERS as u32 * row as u32) as usize + timer
}

// The move that a byte names.
fn as_move(byte: u8) -> Option<usize>
    ensures { result ≡ as_move byte }
{
    if byte == NONE {
        None
    } else {
        Some(usize::from(byte))
    }
}
