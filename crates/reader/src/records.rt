// The parts of a table: each function reads from a place on, writes what it read into the table, and gives the place of the next byte.
ghost use Rattle.std.specs.Prelude.{◌≡◌, map, ◌+◌, ◌*◌, ◌<◌, ◌≤◌, set, replicate};
ghost use Rattle.reader.specs.Parser.{in_order};
ghost use Rattle.reader.specs.Format.{within, amount_byte, conditions, mode_record, move_record};
ghost use Rattle.table.specs.Held.{flat, mode_bytes, move_bytes};
ghost use Rattle.reader.specs.Step.{Wrote, Reads, Copies, WritesHeader, WrotePriced, ReadsResets, Contains, priced, ends, end_bytes};

use crate::CONDITIONS;
use crate::fields::{Field, amount_byte, bit_map, byte_within, optional, reset_byte};
use table::refusals::Refusal;
use table::{
    CEILINGS, GOAL, HIGH, INVARIANT, MODE_RECORDS, MODE_STRIDE, MODES, MOVE_RECORDS, MOVE_STRIDE,
    MOVES, PRICE, RESETS, SIZE, TARGET, TIMERS,
};

// A byte from least to most that stands in the table where it stands in the bytes.
fn copied(
    bytes: &[u8],
    at: usize,
    least: u8,
    most: u8,
    table: &mut [u8; SIZE],
) -> Result<u8, Refusal>
    requires { at < 904 }
    ensures { Copies bytes.now least most at table.old table.new result }
{
    let byte = byte_within(bytes, at, Refusal::OutOfRange, least, most)?;
    table[at] = byte.value;
    Ok(byte.value)
}

// The numbers of modes, timers and moves, and the goal.
fn header(bytes: &[u8], table: &mut [u8; SIZE]) -> Result<(), Refusal>
    ensures { WritesHeader bytes.now table.old table.new result }
{
    let modes = copied(bytes, MODES, 1, 16, table)?;
    copied(bytes, TIMERS, 1, 3, table)?;
    copied(bytes, MOVES, 0, 64, table)?;
    copied(bytes, GOAL, 0, modes - 1, table)?;
    Ok(())
}

// The ceilings, one for each timer.
fn ceilings(bytes: &[u8], timers: u8, table: &mut [u8; SIZE]) -> Result<usize, Refusal>
    requires { timers ≤ 3 }
    ensures { Reads (in_order (λ i. within 2 1 15) 0 timers) bytes.now 4 (λ cs. Wrote timers table.old 4 table.new cs) result }
{
    let behind = CEILINGS + usize::from(timers);
    for at in CEILINGS..behind {
        copied(bytes, at, 1, 15, table)?;
    }
    Ok(behind)
}

// The six conditions of a record, each where its bit stands.
fn conditions(
    bytes: &[u8],
    from: usize,
    map: u8,
    table: &mut [u8; SIZE],
    at: usize,
) -> Result<usize, Refusal>
    requires { at + 6 ≤ 904 }
    ensures { Reads (conditions map) bytes.now from (λ cs. Wrote 6 table.old at table.new cs) result }
{
    let mut next = from;
    for i in 0..CONDITIONS {
        let stands = (map >> (1 + i)) % 2 == 1;
        let condition = optional(bytes, next, stands, Refusal::BadCode, 16, 95)?;
        table[at + i] = condition.value;
        next = condition.next;
    }
    Ok(next)
}

// The low byte of a rate or price, 0 in the high byte's place, and the conditions.
fn priced(
    bytes: &[u8],
    from: usize,
    map: u8,
    table: &mut [u8; SIZE],
    at: usize,
) -> Result<usize, Refusal>
    requires { at + 8 ≤ 904 }
    ensures { Reads (priced map) bytes.now from (WrotePriced table.old at table.new) result }
{
    let low = amount_byte(bytes, from, map % 2 == 1)?;
    table[at] = low.value;
    table[at + HIGH] = 0;
    conditions(bytes, low.next, map, table, at + INVARIANT)
}

// The high byte of a rate or price, the last field of its record, where bit 7 of the byte that announces it stands.
fn high_byte(
    bytes: &[u8],
    from: usize,
    announcing: u8,
    table: &mut [u8; SIZE],
    at: usize,
) -> Result<usize, Refusal>
    requires { at < 904 }
    ensures { Reads (amount_byte announcing 7) bytes.now from (λ b. table.new ≡ set table.old at b) result }
{
    let high = amount_byte(bytes, from, (announcing >> 7) % 2 == 1)?;
    table[at] = high.value;
    Ok(high.next)
}

// A mode record, whose map announces the high byte.
fn mode_record(
    bytes: &[u8],
    from: usize,
    timers: u8,
    table: &mut [u8; SIZE],
    at: usize,
) -> Result<usize, Refusal>
    requires { (timers ≤ 3) × (at + 8 ≤ 904) }
    ensures { Reads (mode_record timers) bytes.now from (λ a. Wrote 8 table.old at table.new (mode_bytes a)) result }
{
    let map = bit_map(bytes, from, timers)?;
    let last = priced(bytes, map.next, map.value, table, at)?;
    high_byte(bytes, last, map.value, table, at + HIGH)
}

// The from mode and the to mode of a move.
fn ends(
    bytes: &[u8],
    from: usize,
    modes: u8,
    table: &mut [u8; SIZE],
    at: usize,
) -> Result<usize, Refusal>
    requires { (0 < modes) × (at + 2 ≤ 904) }
    ensures { Reads (ends modes) bytes.now from (λ a. Wrote 2 table.old at table.new (end_bytes a)) result }
{
    let source = byte_within(bytes, from, Refusal::NoSuchMode, 0, modes - 1)?;
    let target = byte_within(bytes, source.next, Refusal::NoSuchMode, 0, modes - 1)?;
    table[at] = source.value;
    table[at + TARGET] = target.value;
    Ok(target.next)
}

// The reset byte where bit 7 of the map stands: its bits for timers, and the 0 behind them, are written.
fn resets(
    bytes: &[u8],
    from: usize,
    map: u8,
    timers: u8,
    table: &mut [u8; SIZE],
    at: usize,
) -> Result<Field, Refusal>
    requires { (timers ≤ 3) × (at + 2 ≤ 904) }
    ensures { ReadsResets map timers bytes.now from table.old at table.new result }
{
    let byte = reset_byte(bytes, from, (map >> 7) % 2 == 1, timers)?;
    table[at] = byte.value % 8;
    table[at + 1] = 0;
    Ok(byte)
}

// A move record, whose reset byte announces the high byte.
fn move_record(
    bytes: &[u8],
    from: usize,
    modes: u8,
    timers: u8,
    table: &mut [u8; SIZE],
    at: usize,
) -> Result<usize, Refusal>
    requires { (0 < modes) × (timers ≤ 3) × (at + 12 ≤ 904) }
    ensures { Reads (move_record modes timers) bytes.now from (λ a. Wrote 12 table.old at table.new (move_bytes a)) result }
{
    let map = bit_map(bytes, from, timers)?;
    let price = ends(bytes, map.next, modes, table, at)?;
    let reset = priced(bytes, price, map.value, table, at + PRICE)?;
    let byte = resets(bytes, reset, map.value, timers, table, at + RESETS)?;
    high_byte(bytes, byte.next, byte.value, table, at + PRICE + HIGH)
}

// The mode records, one after another. The unit's core multiplies in 32 bits. A loop for these and the move records would take the function of
// one record as a closure, with a contract longer than both.
fn mode_records(
    bytes: &[u8],
    from: usize,
    timers: u8,
    modes: u8,
    table: &mut [u8; SIZE],
) -> Result<usize, Refusal>
    requires { (timers ≤ 3) × (modes ≤ 16) }
    ensures { Reads (in_order (λ i. mode_record timers) 0 modes) bytes.now from
        (λ ms. Wrote (8 * modes) table.old 8 table.new (flat (map mode_bytes ms))) result }
{
    let mut next = from;
    for i in 0..usize::from(modes) {
        let at = MODE_RECORDS + (MODE_STRIDE as u32 * i as u32) as usize;
        next = mode_record(bytes, next, timers, table, at)?;
    }
    Ok(next)
}

// The move records, one after another.
fn move_records(
    bytes: &[u8],
    from: usize,
    timers: u8,
    modes: u8,
    moves: u8,
    table: &mut [u8; SIZE],
) -> Result<usize, Refusal>
    requires { (timers ≤ 3) × (0 < modes) × (moves ≤ 64) }
    ensures { Reads (in_order (λ i. move_record modes timers) 0 moves) bytes.now from
        (λ es. Wrote (12 * moves) table.old 136 table.new (flat (map move_bytes es))) result }
{
    let mut next = from;
    for i in 0..usize::from(moves) {
        let at = MOVE_RECORDS + (MOVE_STRIDE as u32 * i as u32) as usize;
        next = move_record(bytes, next, modes, timers, table, at)?;
    }
    Ok(next)
}

// All parts, into a table of zeros.
pub fn contents(bytes: &[u8], table: &mut [u8; SIZE]) -> Result<usize, Refusal>
    requires { table.old ≡ replicate 904 0 }
    ensures { Contains bytes.now table.new result }
{
    header(bytes, table)?;
    let modes = table[MODES];
    let timers = table[TIMERS];
    let moves = table[MOVES];
    let records = ceilings(bytes, timers, table)?;
    let further = mode_records(bytes, records, timers, modes, table)?;
    move_records(bytes, further, timers, modes, moves, table)
}
