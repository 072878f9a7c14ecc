// Layer 1: from the bytes of a table to its fields at fixed offsets, or to a refusal.
#![tactic(auto)]

ghost use Rattle.std.specs.Prelude.{◌≡◌, replicate};
ghost use Rattle.reader.specs.Read.{read};
ghost use Rattle.reader.specs.Reading.{Reading, IsTableOf, told};
ghost use Rattle.reader.specs.Step.{Judges};

use table::refusals::Refusal;
use table::{SIZE, Table};

mod fields;
mod records;
mod start;

// Conditions of a mode or a move: two for each of three timers.
pub const CONDITIONS: usize = 6;

// The bytes of the longest table.
pub const LONGEST: usize = 919;

// Reads a table from its bytes, or refuses them and leaves every byte of the table 0.
pub fn read(bytes: &[u8], table: &mut [u8; SIZE]) -> Result<(), Refusal>
    ensures { Reading (read bytes.now) (told result) table.new }
{
    *table = [0; SIZE];
    if let Err(refusal) = judged(bytes, table) {
        *table = [0; SIZE];
        return Err(refusal);
    }
    Ok(())
}

// The table that the bytes are.
pub fn table_of(bytes: &[u8]) -> Result<Table, Refusal>
    ensures { IsTableOf bytes.now result }
{
    let mut held = [0; SIZE];
    read(bytes, &mut held)?;
    Ok(Table { bytes: held })
}

// Reads a table into zeros: the first fault decides among 1 to 5, then 6, then 7.
fn judged(bytes: &[u8], table: &mut [u8; SIZE]) -> Result<(), Refusal>
    requires { table.old ≡ replicate 904 0 }
    ensures { Judges bytes.now table.new result }
{
    let next = records::contents(bytes, table)?;
    if next < bytes.len() {
        return Err(Refusal::BytesLeftOver);
    }
    if !start::start_holds(table) {
        return Err(Refusal::StartFails);
    }
    Ok(())
}
