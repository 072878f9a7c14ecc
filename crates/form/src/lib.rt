// The fields of a table as a configuration page holds them: a form of bytes at fixed offsets, which is filled from a table's bytes.
#![tactic(auto)]

ghost use Rattle.std.specs.Prelude.{◌≡◌, ◌+◌, ◌≤◌, drop};
ghost use Rattle.reader.specs.Reading.{told};
ghost use Rattle.form.specs.Form.{place_from, six_places, condition_byte};
ghost use Rattle.form.specs.Filled.{outcome, filled};

mod records;

use reader::CONDITIONS;
use table::refusals::Refusal;
use table::{SIZE, Table};

// The bytes of a form. It begins as a table does: the counts, the goal and the ceilings stand at the same offsets.
pub const FORM: usize = 1384;

// Sixteen modes. Each begins with its rate, the low byte first; then its places.
pub const MODE_FORMS: usize = 8;

pub const MODE_FORM: usize = 14;

pub const MODE_PLACES: usize = 2;

// Sixty-four moves. Each begins with its from mode; then its to mode, its price, the low byte first, its places, the byte of its resets, and
// one that says nothing.
pub const MOVE_FORMS: usize = 232;

pub const MOVE_FORM: usize = 18;

pub const MOVE_PLACES: usize = 4;

pub const MOVE_RESETS: usize = 16;

// Fills a form with the fields of the table that the bytes are, or refuses the bytes and leaves the form as it is.
pub fn fill(bytes: &[u8], form: &mut [u8; FORM]) -> Result<(), Refusal>
    ensures { outcome (told result) form.new ≡ filled bytes.now form.old }
{
    let mut held = [0; SIZE];
    reader::read(bytes, &mut held)?;
    let table = Table { bytes: held };
    records::fill_from(&table, form);
    Ok(())
}

// The conditions in six places, as bytes.
pub fn conditions(form: &[u8; FORM], from: usize) -> [u8; CONDITIONS]
    requires { from + 12 ≤ 1384 }
    ensures { result ≡ six_places (drop from form.now) }
{
    [
        condition_at(form, from),
        condition_at(form, from + 2),
        condition_at(form, from + 4),
        condition_at(form, from + 6),
        condition_at(form, from + 8),
        condition_at(form, from + 10),
    ]
}

// The condition in a place, as a byte.
fn condition_at(form: &[u8; FORM], at: usize) -> u8
    requires { at + 2 ≤ 1384 }
    ensures { result ≡ place_from (drop at form.now) }
{
    condition_byte(form[at], form[at + 1])
}

// A condition's byte by its code and its value: 0 where there is none, and 255 where no byte can say it.
fn condition_byte(code: u8, value: u8) -> u8
    ensures { result ≡ condition_byte code value }
{
    if code == 0 {
        return 0;
    }
    if 15 < code || 15 < value {
        return 255;
    }
    16 * code + value
}
