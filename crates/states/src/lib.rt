// The states of a table in whole minutes: a mode, and a value for each timer up to its ceiling. They are the nodes of the search for a timetable. The
// arithmetic is in 32 bits.
#![tactic(auto)]

ghost use Rattle.std.specs.Prelude.{◌≡◌, cond, map, ℕ, ◌+◌, ◌*◌, ◌<◌, ◌≤◌, get_or};
ghost use Rattle.table.specs.Held.{IsTable};
ghost use Rattle.table.specs.Meaning.{stands};
ghost use Rattle.arrays.specs.Arrays.{map_to};
ghost use Rattle.states.specs.States.{most_timers, most_nodes, IsStates, StatesReady, IsState, zeroed_in, LeadReady, LeadDone};

use corners::cells::{cell_at, cell_number, cells};
use table::{MOST_TIMERS, Table};

// How many states there are, and of a mode; the number of timers, and their ceilings, 0 behind the last one.
#[derive(Clone, Copy)]
pub struct States {
    pub count: usize,
    pub cells: usize,
    pub timers: usize,
    pub ceilings: [u8; MOST_TIMERS],
}

// A state: its mode, and the values of the timers in minutes, 0 behind the last one.
#[derive(Clone, Copy)]
pub struct State {
    pub mode: usize,
    pub values: [u8; MOST_TIMERS],
}

pub fn states_of(table: &Table) -> States
    ensures { IsStates table.now.bytes result }
{
    let ceilings = table.ceilings();
    let cells = cells(ceilings);
    let count = table.modes() as u32 * cells;
    States {
        count: count as usize,
        cells: cells as usize,
        timers: table.timers(),
        ceilings,
    }
}

// The state with a number.
pub fn state_at(states: States, node: usize) -> State
    requires { StatesReady states × (node < most_nodes) }
    ensures { IsState states node result }
{
    let cells = states.cells as u32;
    State {
        mode: (node as u32 / cells) as usize,
        values: cell_at(states.ceilings, node as u32 % cells),
    }
}

// The values some minutes later, of the timers that are there.
pub fn waited(values: [u8; MOST_TIMERS], timers: usize, minutes: u8) -> [u8; MOST_TIMERS]
    requires { (timers ≤ most_timers) × ((i : ℕ) → get_or values i 0 + minutes < 256) }
    ensures { result ≡ map_to (λ v. v + minutes) timers values }
{
    arrays::raised_by(values, timers, minutes)
}

// The places of the timers in half minutes, by which the rules go.
pub fn halves(values: [u8; MOST_TIMERS]) -> [u8; MOST_TIMERS]
    requires { (i : ℕ) → get_or values i 0 < 128 }
    ensures { result ≡ map (λ v. 2 * v) values }
{
    values.map(|v| 2 * v)
}

// A timer's value after the resets of a byte.
fn kept(value: u8, resets: u8, timer: u32) -> u8
    requires { timer < most_timers }
    ensures { result ≡ cond (stands resets timer) 0 value }
{
    if (resets >> timer) % 2 == 1 { 0 } else { value }
}

// The values after them.
fn zeroed(values: [u8; MOST_TIMERS], resets: u8) -> [u8; MOST_TIMERS]
    ensures { result ≡ zeroed_in resets values }
{
    [
        kept(values[0], resets, 0),
        kept(values[1], resets, 1),
        kept(values[2], resets, 2),
    ]
}

// The node to which a move leads from a state with these values.
pub fn lead(states: States, table: &Table, values: [u8; MOST_TIMERS], e: usize) -> usize
    requires { LeadReady table.now.bytes states values e }
    ensures { LeadDone table.now.bytes values e result }
{
    let target = table.target(e) as u32;
    let cell = cell_number(states.ceilings, zeroed(values, table.resets(e)));
    (target * states.cells as u32 + cell) as usize
}
