// Layer 1: from the fields of a table, in a form, to its bytes, or to the number of a refusal.
#![tactic(auto)]

ghost use Rattle.std.specs.Prelude.{◌≡◌};
ghost use Rattle.writer.specs.Written.{told, outcome, written, Lays};

mod records;

use form::FORM;
use parts::Pen;
use reader::LONGEST;
use table::refusals::Refusal;

// Writes the table that a form says from the front of the destination on, and gives the number of its bytes; or refuses it and leaves the
// destination as it is. It is made apart, so that a refusal comes before the first byte.
pub fn write(form: &[u8; FORM], destination: &mut [u8]) -> Result<usize, Refusal>
    ensures outcome { outcome (told result) destination.new ≡ written form.now destination.old }
    ensures layout { Lays form.now (told result) destination.new }
{
    let mut pen = Pen {
        bytes: [0; LONGEST],
        at: 0,
    };
    records::table(form, &mut pen)?;
    let n = pen.at;
    if destination.len() < n {
        return Err(Refusal::DestinationTooShort);
    }
    destination[..n].copy_from_slice(&pen.bytes[..n]);
    Ok(n)
}
