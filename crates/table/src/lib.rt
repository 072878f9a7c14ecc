// Layer 1: a table as bytes at fixed offsets, and what is read from it.
#![tactic(auto)]

ghost use Rattle.std.specs.Prelude.{◌≡◌, ◌+◌, ◌*◌, ◌<◌, ◌≤◌, ◌^◌, length, get_or};
ghost use Rattle.semantics.specs.Automaton.{timers, mode_at, move_at};
ghost use Rattle.table.specs.Fields.{most_timers};
ghost use Rattle.table.specs.Held.{pad, fields_of, automaton_of, move_fields_at, IsTable};

pub mod refusals;

// "timers n, 1 to 3".
pub const MOST_TIMERS: usize = 3;

// How many bytes hold a table.
pub const SIZE: usize = 904;

// The counts, the goal and the ceilings, 0 behind the last one.
pub const MODES: usize = 0;

pub const TIMERS: usize = 1;

pub const MOVES: usize = 2;

pub const GOAL: usize = 3;

pub const CEILINGS: usize = 4;

// Sixteen mode records. Each begins with its rate, the low byte first; then its conditions.
pub const MODE_RECORDS: usize = 8;

pub const MODE_STRIDE: usize = 8;

// The high byte of a rate or price stands behind the low one.
pub const HIGH: usize = 1;

pub const INVARIANT: usize = 2;

// Sixty-four move records. Each begins with its from mode; then its to mode, its price, the low byte first, its conditions, the byte of its
// resets, and 0.
pub const MOVE_RECORDS: usize = 136;

pub const MOVE_STRIDE: usize = 12;

pub const TARGET: usize = 1;

pub const PRICE: usize = 2;

pub const GUARD: usize = 4;

pub const RESETS: usize = 10;

// The bytes of a table that was read.
#[derive(Drop)]
pub struct Table {
    pub bytes: [u8; SIZE],
    pub ghost is_table: { IsTable bytes },
}

impl Table {
    // The number of modes.
    pub fn modes(&self) -> usize
        ensures { result ≡ length (automaton_of self.now.bytes).modes }
    {
        usize::from(self.bytes[MODES])
    }

    // The number of timers.
    pub fn timers(&self) -> usize
        ensures { result ≡ timers (automaton_of self.now.bytes) }
    {
        usize::from(self.bytes[TIMERS])
    }

    // The number of moves.
    pub fn moves(&self) -> usize
        ensures { result ≡ length (automaton_of self.now.bytes).moves }
    {
        usize::from(self.bytes[MOVES])
    }

    // The goal.
    pub fn goal(&self) -> usize
        ensures { result ≡ (automaton_of self.now.bytes).goal }
    {
        usize::from(self.bytes[GOAL])
    }

    // All ceilings, 0 behind the last one.
    pub fn ceilings(&self) -> [u8; MOST_TIMERS]
        ensures { result ≡ pad most_timers (automaton_of self.now.bytes).ceilings }
    {
        [
            self.bytes[CEILINGS],
            self.bytes[CEILINGS + 1],
            self.bytes[CEILINGS + 2],
        ]
    }

    // What a minute in a mode is charged.
    pub fn rate(&self, mode: usize) -> u16
        requires { mode < length (automaton_of self.now.bytes).modes }
        ensures { result ≡ (mode_at (automaton_of self.now.bytes) mode).rate }
    {
        amount(&self.bytes, MODE_RECORDS + MODE_STRIDE * mode)
    }

    // The from mode of a move.
    pub fn source(&self, e: usize) -> usize
        requires { e < length (automaton_of self.now.bytes).moves }
        ensures { result ≡ (move_at (automaton_of self.now.bytes) e).source }
    {
        usize::from(self.bytes[MOVE_RECORDS + MOVE_STRIDE * e])
    }

    // The to mode of a move.
    pub fn target(&self, e: usize) -> usize
        requires { e < length (automaton_of self.now.bytes).moves }
        ensures { result ≡ (move_at (automaton_of self.now.bytes) e).target }
    {
        usize::from(self.bytes[MOVE_RECORDS + MOVE_STRIDE * e + TARGET])
    }

    // What a move is charged.
    pub fn price(&self, e: usize) -> u16
        requires { e < length (automaton_of self.now.bytes).moves }
        ensures { result ≡ (move_at (automaton_of self.now.bytes) e).price }
    {
        amount(&self.bytes, MOVE_RECORDS + MOVE_STRIDE * e + PRICE)
    }

    // The byte whose bits name the timers that a move resets.
    pub fn resets(&self, e: usize) -> u8
        requires { e < length (automaton_of self.now.bytes).moves }
        ensures { result ≡ (move_fields_at (fields_of self.now.bytes) e).resets }
    {
        self.bytes[MOVE_RECORDS + MOVE_STRIDE * e + RESETS]
    }
}

// Two bytes as a number, the low one first.
fn amount(table: &[u8; SIZE], at: usize) -> u16
    requires { at + 1 < 904 }
    ensures { result ≡ get_or table.now at 0 + 256 * get_or table.now (at + 1) 0 }
{
    u16::from_le_bytes([table[at], table[at + HIGH]])
}

// Numbers below this one have bits for the first so many timers alone.
pub fn names(timers: u8) -> u8
    requires { timers ≤ 3 }
    ensures { result ≡ 2 ^ timers }
{
    1u8 << timers
}
