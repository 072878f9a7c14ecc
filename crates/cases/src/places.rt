// Where a chain stands, and its steps.
ghost use Rattle.std.specs.Prelude.{◌<◌, IfSome, length};
ghost use Rattle.table.specs.Held.{automaton_of};
ghost use Rattle.regions.specs.Held.{Valid};
ghost use Rattle.cases.specs.Kept.{OnChain, Leads};

use crate::operations::Operation;
use crate::{operations, print};
use regions::Region;
use rules::{GUARDS, RULES};
use table::Table;

// A mode and a priced region.
#[derive(Clone, Copy)]
pub struct Place {
    pub mode: usize,
    pub region: Region,
}

// "A chain begins in mode 0 with the start region".
pub fn start(rt: &impl Print, table: &Table) -> Place
    ensures { OnChain table.now.bytes 1024 result.mode result.region }
{
    print::text(rt, b"start");
    Place {
        mode: 0,
        region: Region::start(table.timers()),
    }
}

// Prints a step, and makes it, if it is allowed. "A step is one byte: 0 to 63 the move of that number, 64 delay, 65 linger."
pub fn step(rt: &impl Print, table: &Table, place: Place, byte: usize) -> Option<Place>
    requires { OnChain table.now.bytes 1 place.mode place.region }
    ensures { IfSome result (λ next. Leads table.now.bytes place.mode place.region next.mode next.region) }
{
    print::with(rt, b"step A", byte);
    if byte < table.moves() {
        moved(table, place, byte)
    } else {
        waited(table, place, byte)
    }
}

// "A move's step tests its conditions, resets, charges, and tests the target's conditions."
fn moved(table: &Table, place: Place, e: usize) -> Option<Place>
    requires { OnChain table.now.bytes 1 place.mode place.region × (e < length (automaton_of table.now.bytes).moves) }
    ensures { IfSome result (λ next. Leads table.now.bytes place.mode place.region next.mode next.region) }
{
    if table.source(e) != place.mode || !fits(table, place.region, GUARDS + e) {
        return None;
    }
    let resets = u16::from(table.resets(e));
    let cleared = operations::operated(place.region, Operation::ResetAll, resets);
    Some(Place {
        mode: table.target(e),
        region: operations::operated(cleared, Operation::Charge, table.price(e)),
    })
}

// Delay, "allowed if the new region meets the mode's conditions and every ceiling", or linger, which "is always allowed". Any other step is not.
fn waited(table: &Table, place: Place, byte: usize) -> Option<Place>
    requires { OnChain table.now.bytes 1 place.mode place.region }
    ensures { IfSome result (λ next. Leads table.now.bytes place.mode place.region next.mode next.region) }
{
    let operation = match byte {
        64 => Operation::Delay,
        65 => Operation::Linger,
        _ => return None,
    };
    let mode = place.mode;
    let region = operations::operated(place.region, operation, table.rate(mode));
    if operation == Operation::Delay && !fits(table, region, mode) {
        return None;
    }
    Some(Place { mode, region })
}

// Whether a region is within the ceilings, and within a row of the rules: that of a mode has its conditions, and that of a move those of its step.
fn fits(table: &Table, region: Region, row: usize) -> bool
    requires { Valid region × (row < 80) }
{
    if region.within(table.ceilings()) {
        let mut rules = [0u8; RULES];
        rules::make(table, &mut rules);
        return rules::all_inside(&rules, row, region.halves());
    }
    false
}
