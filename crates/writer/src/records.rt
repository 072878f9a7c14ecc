// The parts of a table: each function writes with the pen what a form says there.
ghost use Rattle.std.specs.Prelude.{◌≡◌, map, ◌+◌, ◌*◌, ◌≤◌, ◌<◌, length, get_or, drop};
ghost use Rattle.table.specs.Held.{records_from};
ghost use Rattle.form.specs.Form.{mode_said, move_said, said};
ghost use Rattle.parts.specs.Part.{◌then◌, each};
ghost use Rattle.parts.specs.Format.{amount_byte, condition_part, mode_record, mode_byte, reset_byte, move_record, header, ceiling_byte, table};
ghost use Rattle.parts.specs.Compact.{compact_mode, compact_move, compacted};
ghost use Rattle.parts.specs.Puts.{Puts};

use form::{
    FORM, MODE_FORM, MODE_FORMS, MODE_PLACES, MOVE_FORM, MOVE_FORMS, MOVE_PLACES, MOVE_RESETS,
};
use parts::{Pen, between, bit_of, bits, compact, first_of};
use reader::CONDITIONS;
use table::refusals::Refusal;
use table::{CEILINGS, GOAL, HIGH, MODES, MOVES, PRICE, TARGET, TIMERS, names};

// The numbers of modes, timers and moves, and the goal.
fn header(modes: u8, timers: u8, moves: u8, goal: u8, pen: &mut Pen) -> Result<(), Refusal>
    requires { pen.old.at + 4 ≤ 919 }
    ensures { Puts 4 (header modes timers moves goal) pen.old result pen.new }
{
    pen.counted(modes, 1, 16)?;
    pen.counted(timers, 1, 3)?;
    pen.checked(moves, moves <= 64, Refusal::OutOfRange)?;
    pen.checked(goal, goal < modes, Refusal::OutOfRange)
}

// The ceilings, one for each timer.
fn ceilings(form: &[u8; FORM], timers: u8, pen: &mut Pen) -> Result<(), Refusal>
    requires { (timers ≤ 3) × (pen.old.at + 3 ≤ 919) }
    ensures { Puts (1 * timers) (each ceiling_byte (records_from (λ u. get_or u 0 0) 1 timers (drop 4 form.now))) pen.old result pen.new }
{
    for &ceiling in &form[CEILINGS..CEILINGS + timers as usize] {
        pen.counted(ceiling, 1, 15)?;
    }
    Ok(())
}

// The conditions that are there.
fn conditions(six: [u8; CONDITIONS], pen: &mut Pen) -> Result<(), Refusal>
    requires { pen.old.at + 6 ≤ 919 }
    ensures { Puts (1 * 6) (each condition_part six) pen.old result pen.new }
{
    for b in six {
        pen.unless_zero(b, between(b, 16, 95), Refusal::BadCode)?;
    }
    Ok(())
}

// The low byte of a rate or price, and the conditions.
fn priced(low: u8, six: [u8; CONDITIONS], pen: &mut Pen) -> Result<(), Refusal>
    requires { pen.old.at + 7 ≤ 919 }
    ensures { Puts 7 (amount_byte low then each condition_part six) pen.old result pen.new }
{
    pen.amount_byte(low);
    conditions(six, pen)
}

// A mode record, whose map announces the high byte.
fn mode_record(form: &[u8; FORM], from: usize, timers: u8, pen: &mut Pen) -> Result<(), Refusal>
    requires { (from + 14 ≤ 1384) × (timers ≤ 3) × (pen.old.at + 9 ≤ 919) }
    ensures { Puts 9 (mode_record timers (compact_mode (mode_said (drop from form.now)))) pen.old result pen.new }
{
    let low = form[from];
    let high = form[from + HIGH];
    let six = compact(form::conditions(form, from + MODE_PLACES));
    pen.map_byte(bits(low, six, high), timers)?;
    priced(low, six, pen)?;
    pen.amount_byte(high);
    Ok(())
}

// The from mode and the to mode of a move.
fn ends(source: u8, target: u8, modes: u8, pen: &mut Pen) -> Result<(), Refusal>
    requires { pen.old.at + 2 ≤ 919 }
    ensures { Puts 2 (mode_byte modes source then mode_byte modes target) pen.old result pen.new }
{
    pen.checked(source, source < modes, Refusal::NoSuchMode)?;
    pen.checked(target, target < modes, Refusal::NoSuchMode)
}

// The reset byte, which announces the high byte, and the high byte.
fn resets(resets: u8, high: u8, timers: u8, pen: &mut Pen) -> Result<(), Refusal>
    requires { (timers ≤ 3) × (pen.old.at + 2 ≤ 919) }
    ensures { Puts 2 (reset_byte timers resets high then amount_byte high) pen.old result pen.new }
{
    if names(timers) <= resets {
        return Err(Refusal::AbsentTimer);
    }
    pen.amount_byte(resets + 128 * bit_of(high));
    pen.amount_byte(high);
    Ok(())
}

// A move record. Bit 7 of its map stands where resets or a high byte are there.
fn move_record(
    form: &[u8; FORM],
    from: usize,
    modes: u8,
    timers: u8,
    pen: &mut Pen,
) -> Result<(), Refusal>
    requires { (from + 18 ≤ 1384) × (timers ≤ 3) × (pen.old.at + 12 ≤ 919) }
    ensures { Puts 12 (move_record modes timers (compact_move (move_said (drop from form.now)))) pen.old result pen.new }
{
    let low = form[from + PRICE];
    let high = form[from + PRICE + HIGH];
    let reset = form[from + MOVE_RESETS];
    let six = compact(form::conditions(form, from + MOVE_PLACES));
    pen.map_byte(bits(low, six, first_of(reset, high)), timers)?;
    ends(form[from], form[from + TARGET], modes, pen)?;
    priced(low, six, pen)?;
    resets(reset, high, timers, pen)
}

// The mode records, one after another. A record's number says where the form has it; the unit's core multiplies in 32 bits.
fn mode_records(form: &[u8; FORM], timers: u8, modes: u8, pen: &mut Pen) -> Result<(), Refusal>
    requires { (timers ≤ 3) × (modes ≤ 16) × (pen.old.at + 144 ≤ 919) }
    ensures { Puts (9 * modes) (each (mode_record timers) (map compact_mode (records_from mode_said 14 modes (drop 8 form.now)))) pen.old result pen.new }
{
    for i in 0..usize::from(modes) {
        let from = MODE_FORMS + (MODE_FORM as u32 * i as u32) as usize;
        mode_record(form, from, timers, pen)?;
    }
    Ok(())
}

// The move records, likewise. One loop for both would take what is done with a record, with a contract longer than both.
fn move_records(
    form: &[u8; FORM],
    timers: u8,
    modes: u8,
    moves: u8,
    pen: &mut Pen,
) -> Result<(), Refusal>
    requires { (timers ≤ 3) × (moves ≤ 64) × (pen.old.at + 768 ≤ 919) }
    ensures { Puts (12 * moves) (each (move_record modes timers) (map compact_move (records_from move_said 18 moves (drop 232 form.now))))
        pen.old result pen.new }
{
    for i in 0..usize::from(moves) {
        let from = MOVE_FORMS + (MOVE_FORM as u32 * i as u32) as usize;
        move_record(form, from, modes, timers, pen)?;
    }
    Ok(())
}

// All parts, from the front on.
pub fn table(form: &[u8; FORM], pen: &mut Pen) -> Result<(), Refusal>
    requires { pen.old.at ≡ 0 }
    ensures { Puts 919 (table (compacted (said form.now))) pen.old result pen.new }
{
    let modes = form[MODES];
    let timers = form[TIMERS];
    let moves = form[MOVES];
    header(modes, timers, moves, form[GOAL], pen)?;
    ceilings(form, timers, pen)?;
    mode_records(form, timers, modes, pen)?;
    move_records(form, timers, modes, moves, pen)
}
