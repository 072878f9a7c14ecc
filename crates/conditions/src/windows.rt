// The windows of condition bytes, in half minutes, and the ends of one that is joined to another.
ghost use Rattle.std.specs.Prelude.{◌≡◌, ◌/◌, ◌%◌, ◌≤◌, ◌<◌, max, min};
ghost use Rattle.semantics.specs.Regions.Windows.{lowest, above};
ghost use Rattle.table.specs.Meaning.{comparison_of, condition_of, conditions_from};
ghost use Rattle.table.specs.Fields.{most_ceiling};
ghost use Rattle.conditions.specs.Windows.{joined_low, joined_high, capped, row_of, narrow};

use crate::comparison::Comparison;

// The windows of three timers: of each the lowest place at which its conditions hold, and the first above it at which they do not.
pub const ROW: usize = 6;

// No timer stands so far on. It is a byte of a row, as `row_of` has it, and compared as one: no option.
const FREE: u8 = 255;

// The windows of the six conditions of a mode or a move, where 0 is none.
pub fn windows(conditions: [u8; ROW]) -> [u8; ROW]
    ensures { result ≡ row_of (conditions_from 0 conditions) }
{
    let mut row = [0, FREE, 0, FREE, 0, FREE];
    for (i, &condition) in conditions.iter().enumerate() {
        if condition != 0 {
            narrow(&mut row, i % 3, condition);
        }
    }
    row
}

// With one condition more.
fn narrow(row: &mut [u8; ROW], timer: usize, condition: u8)
    requires { timer < 3 }
    ensures { row.new ≡ narrow row.old (condition_of timer condition) }
{
    let low = 2 * timer;
    let high = low + 1;
    row[low] = row[low].max(lowest(condition));
    row[high] = row[high].min(above(condition));
}

// The lowest place at which a condition holds.
fn lowest(condition: u8) -> u8
    ensures { result ≡ lowest (comparison_of (condition / 16)) (condition % 16) }
{
    let value = 2 * (condition % 16);
    match Comparison::from(condition / 16) {
        Comparison::Less | Comparison::AtMost => 0,
        Comparison::Equal | Comparison::AtLeast => value,
        Comparison::Greater => value + 1,
    }
}

// The first place above it at which it does not hold.
fn above(condition: u8) -> u8
    ensures { result ≡ above (comparison_of (condition / 16)) (condition % 16) }
{
    let value = 2 * (condition % 16);
    match Comparison::from(condition / 16) {
        Comparison::Less => value,
        Comparison::AtMost | Comparison::Equal => value + 1,
        Comparison::AtLeast | Comparison::Greater => FREE,
    }
}

// The low end of a window when another one, the target's, is joined to it. Where the timer is reset it stays as it is.
pub fn joined_low(reset: bool, own: u8, low: u8) -> u8
    ensures { result ≡ joined_low reset own low }
{
    if reset {
        return own;
    }
    own.max(low)
}

// And the high end. A timer that is reset stands at 0 in the target: where 0 is outside, no place is left.
pub fn joined_high(reset: bool, own: u8, low: u8, high: u8) -> u8
    ensures { result ≡ joined_high reset own low high }
{
    if !reset {
        return own.min(high);
    }
    if 0 < low {
        return 0;
    }
    if high == 0 {
        return 0;
    }
    own
}

// The high end of a window when a ceiling is joined to it: at an even place, so that the first place above it is the next.
pub fn capped(high: u8, ceiling: u8) -> u8
    requires { ceiling ≤ most_ceiling }
    ensures { result ≡ capped high ceiling }
{
    high.min(2 * ceiling + 1)
}
