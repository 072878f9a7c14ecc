// A form's parts, one behind another, from those of a table that was read.
ghost use Rattle.std.specs.Prelude.{◌≡◌, ◌+◌, ◌≤◌, take, drop};
ghost use Rattle.table.specs.Held.{flat, records_from, fields_of};
ghost use Rattle.form.specs.Formed.{place, places, formed};
ghost use Rattle.form.specs.Appends.{Appends, mode_widened, move_widened};

use crate::{
    FORM, MODE_FORM, MODE_FORMS, MODE_PLACES, MOVE_FORM, MOVE_FORMS, MOVE_PLACES, MOVE_RESETS,
};
use reader::CONDITIONS;
use table::{
    GUARD, INVARIANT, MODE_RECORDS, MODE_STRIDE, MOVE_RECORDS, MOVE_STRIDE, RESETS, SIZE, Table,
};

// All records that a table has room for: those behind the last one are 0 in both.
const MODES: usize = 16;

const MOVES: usize = 64;

// So many bytes, as they stand in the table.
fn copied(table: &[u8; SIZE], from: usize, form: &mut [u8; FORM], at: usize, n: usize)
    requires { (from + n ≤ 904) × (at + n ≤ 1384) }
    ensures { Appends form.old at (take n (drop from table.now)) form.new (at + n) }
{
    form[at..at + n].copy_from_slice(&table[from..from + n]);
}

// A condition's code and value.
fn place(c: u8, form: &mut [u8; FORM], at: usize)
    requires { at + 2 ≤ 1384 }
    ensures { Appends form.old at (place c) form.new (at + 2) }
{
    form[at] = c / 16;
    form[at + 1] = c % 16;
}

// The six places of a record. Each has two bytes, so the loop needs a condition's number.
fn places(table: &[u8; SIZE], from: usize, form: &mut [u8; FORM], at: usize)
    requires { (from + 6 ≤ 904) × (at + 12 ≤ 1384) }
    ensures { Appends form.old at (places (take 6 (drop from table.now))) form.new (at + 12) }
{
    for i in 0..CONDITIONS {
        place(table[from + i], form, at + 2 * i);
    }
}

// A mode: its rate, and its conditions.
fn mode_form(table: &[u8; SIZE], from: usize, form: &mut [u8; FORM], at: usize)
    requires { (from + 8 ≤ 904) × (at + 14 ≤ 1384) }
    ensures { Appends form.old at (mode_widened (drop from table.now)) form.new (at + 14) }
{
    copied(table, from, form, at, INVARIANT);
    places(table, from + INVARIANT, form, at + MODE_PLACES);
}

// A move: its modes and its price, its conditions, and the byte of its resets with the 0 behind it. What differs from a mode is all but the places.
fn move_form(table: &[u8; SIZE], from: usize, form: &mut [u8; FORM], at: usize)
    requires { (from + 12 ≤ 904) × (at + 18 ≤ 1384) }
    ensures { Appends form.old at (move_widened (drop from table.now)) form.new (at + 18) }
{
    copied(table, from, form, at, GUARD);
    places(table, from + GUARD, form, at + MOVE_PLACES);
    copied(
        table,
        from + RESETS,
        form,
        at + MOVE_RESETS,
        MOVE_STRIDE - RESETS,
    );
}

// The modes. A record's number says where it stands, in the table and in the form; the unit's core multiplies in 32 bits.
fn mode_forms(table: &[u8; SIZE], form: &mut [u8; FORM])
    ensures { Appends form.old 8 (flat (records_from mode_widened 8 16 (drop 8 table.now))) form.new 232 }
{
    for i in 0..MODES {
        let from = MODE_RECORDS + (MODE_STRIDE as u32 * i as u32) as usize;
        mode_form(
            table,
            from,
            form,
            MODE_FORMS + (MODE_FORM as u32 * i as u32) as usize,
        );
    }
}

// The moves, likewise. One loop for both would take what is done with a record, with a contract longer than both.
fn move_forms(table: &[u8; SIZE], form: &mut [u8; FORM])
    ensures { Appends form.old 232 (flat (records_from move_widened 12 64 (drop 136 table.now))) form.new 1384 }
{
    for i in 0..MOVES {
        let from = MOVE_RECORDS + (MOVE_STRIDE as u32 * i as u32) as usize;
        move_form(
            table,
            from,
            form,
            MOVE_FORMS + (MOVE_FORM as u32 * i as u32) as usize,
        );
    }
}

// A form that says what the table says.
pub fn fill_from(table: &Table, form: &mut [u8; FORM])
    ensures { form.new ≡ formed (fields_of table.now.bytes) }
{
    copied(&table.bytes, 0, form, 0, MODE_FORMS);
    mode_forms(&table.bytes, form);
    move_forms(&table.bytes, form);
}
