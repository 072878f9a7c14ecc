// The cells by their numbers: the whole parts of the timers as the digits of a number in mixed radix. The arithmetic is in 32 bits.
ghost use Rattle.std.specs.Prelude.{◌≡◌, ◌+◌, ◌*◌, ◌%◌, ◌≤◌};
ghost use Rattle.semantics.specs.NodeCount.{cell_count};
ghost use Rattle.semantics.specs.Nodes.Node.{cell_number, cell_at};
ghost use Rattle.corners.specs.Cells.{most_ceiling, most_cells, most_cell_number, CeilingsFew, IsFactor};

use table::MOST_TIMERS;

// How many whole parts a timer may have.
fn factor(ceiling: u8) -> u32
    requires { ceiling ≤ most_ceiling }
    ensures { IsFactor ceiling result }
{
    u32::from(ceiling) + 1
}

// How many cells there are. Behind the last ceiling there is 0, so that the factors there are 1.
pub fn cells(ceilings: [u8; MOST_TIMERS]) -> u32
    requires { CeilingsFew ceilings }
    ensures { (result ≡ cell_count ceilings) × (1 ≤ result) × (result ≤ most_cells) }
{
    factor(ceilings[2]) * factor(ceilings[1]) * factor(ceilings[0])
}

// One digit more of a number in mixed radix. Two digits that are bytes, with factors up to 16, give at most 4335.
fn with_digit(high: u32, factor: u32, digit: u8) -> u32
    requires { (high ≤ 4335) × (factor ≤ 16) }
    ensures { (result ≡ high * factor + digit) × (result ≤ 16 * high + 255) }
{
    high * factor + u32::from(digit)
}

// The number of a cell.
pub fn cell_number(ceilings: [u8; MOST_TIMERS], whole: [u8; MOST_TIMERS]) -> u32
    requires { CeilingsFew ceilings }
    ensures { (result ≡ cell_number ceilings whole) × (result ≤ most_cell_number) }
{
    let a = factor(ceilings[0]);
    let b = factor(ceilings[1]);
    let c = factor(ceilings[2]);
    let last = with_digit(0, c, whole[2]);
    let high = with_digit(last, b, whole[1]);
    with_digit(high, a, whole[0])
}

// The lowest digit of a number in mixed radix.
fn digit(number: u32, factor: u32) -> u8
    requires { (1 ≤ factor) × (factor ≤ 16) }
    ensures { result ≡ number % factor }
{
    (number % factor) as u8
}

// The cell with a number.
pub fn cell_at(ceilings: [u8; MOST_TIMERS], number: u32) -> [u8; MOST_TIMERS]
    requires { CeilingsFew ceilings }
    ensures { result ≡ cell_at ceilings number }
{
    let a = factor(ceilings[0]);
    let b = factor(ceilings[1]);
    let c = factor(ceilings[2]);
    let high = number / a;
    let last = high / b;
    [digit(number, a), digit(high, b), digit(last, c)]
}
