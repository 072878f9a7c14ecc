// Single fields of a table: each function reads from a place on with one parser of the definitions.
ghost use Rattle.std.specs.Prelude.{◌≡◌, ◌+◌, ◌≤◌, IfOk};
ghost use Rattle.table.specs.Refusals.{number};
ghost use Rattle.reader.specs.Format.{any_byte, within, if_stands, bit_map, reset_byte};
ghost use Rattle.reader.specs.Step.{GivesField, GivesWithin};

use table::names;
use table::refusals::Refusal;

// What was read, and the place of the next byte.
#[derive(Clone, Copy)]
pub struct Field {
    pub next: usize,
    pub value: u8,
}

// Any byte.
fn any_byte(bytes: &[u8], from: usize) -> Result<Field, Refusal>
    ensures gives { GivesField any_byte bytes.now from result }
    ensures one { IfOk result (λ f. f.next ≡ from + 1) }
{
    match bytes.get(from) {
        Some(&value) => Ok(Field {
            next: from + 1,
            value,
        }),
        None => Err(Refusal::NoByteLeft),
    }
}

// A byte from least to most.
pub fn byte_within(
    bytes: &[u8],
    from: usize,
    refusal: Refusal,
    least: u8,
    most: u8,
) -> Result<Field, Refusal>
    ensures { GivesWithin (number refusal) least most bytes.now from result }
{
    let byte = any_byte(bytes, from)?;
    if byte.value < least || most < byte.value {
        return Err(refusal);
    }
    Ok(byte)
}

// The same where its bit stands; otherwise no byte, and 0.
pub fn optional(
    bytes: &[u8],
    from: usize,
    stands: bool,
    refusal: Refusal,
    least: u8,
    most: u8,
) -> Result<Field, Refusal>
    ensures { GivesField (if_stands stands (within (number refusal) least most)) bytes.now from result }
{
    if stands {
        byte_within(bytes, from, refusal, least, most)
    } else {
        Ok(Field {
            next: from,
            value: 0,
        })
    }
}

// A byte of a rate or price where its bit stands; otherwise no byte, and 0. No refusal and no range go with it, so that it is no case of `optional`.
pub fn amount_byte(bytes: &[u8], from: usize, stands: bool) -> Result<Field, Refusal>
    ensures { GivesField (if_stands stands any_byte) bytes.now from result }
{
    if stands {
        any_byte(bytes, from)
    } else {
        Ok(Field {
            next: from,
            value: 0,
        })
    }
}

// A bit map, none of whose bits is for an absent timer.
pub fn bit_map(bytes: &[u8], from: usize, timers: u8) -> Result<Field, Refusal>
    requires { timers ≤ 3 }
    ensures { GivesField (bit_map timers) bytes.now from result }
{
    let map = any_byte(bytes, from)?;
    let b = map.value;
    let limit = names(timers);
    if limit <= b / 2 % 8 || limit <= b / 16 % 8 {
        return Err(Refusal::AbsentTimer);
    }
    Ok(map)
}

// A reset byte where its bit stands: but for bit 7, each of its bits is for a timer that is there.
pub fn reset_byte(bytes: &[u8], from: usize, stands: bool, timers: u8) -> Result<Field, Refusal>
    requires { timers ≤ 3 }
    ensures { GivesField (if_stands stands (reset_byte timers)) bytes.now from result }
{
    if !stands {
        return Ok(Field {
            next: from,
            value: 0,
        });
    }
    let byte = any_byte(bytes, from)?;
    if names(timers) <= byte.value % 128 {
        return Err(Refusal::AbsentTimer);
    }
    Ok(byte)
}
