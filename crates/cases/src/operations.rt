// The operations on a region, by the letters that a script has for them.
ghost use Rattle.std.specs.Prelude.{◌≤◌};
ghost use Rattle.regions.specs.Held.{view, Valid, PriceRoom};
ghost use Rattle.cases.specs.Kept.{most_amount, Kept};

use regions::Region;

// A delay is made only from a region within this ceiling.
const MOST_WHOLE: u8 = 15;

// An operation on a region.
#[derive(Clone, Copy, Debug, PartialEq, Eq)]
pub enum Operation {
    Delay,
    Linger,
    Reset,
    ResetAll,
    Charge,
}

impl Operation {
    // By its letter; any other letter is none.
    pub fn of_letter(letter: u8) -> Option<Operation> {
        match letter {
            b'd' => Some(Operation::Delay),
            b'l' => Some(Operation::Linger),
            b'r' => Some(Operation::Reset),
            b'a' => Some(Operation::ResetAll),
            b'c' => Some(Operation::Charge),
            _ => None,
        }
    }
}

// The region after an operation with an amount.
pub fn operated(region: Region, operation: Operation, amount: u16) -> Region
    requires { Valid region × PriceRoom most_amount (view region) }
    ensures { Kept region result }
{
    match operation {
        Operation::Delay => delayed(region, u32::from(amount)),
        Operation::Linger => region.linger(u32::from(amount)),
        Operation::Reset => region.reset(usize::from(amount) % Region::MOST_TIMERS),
        Operation::ResetAll => region.reset_all((amount % 256) as u8),
        Operation::Charge => region.charge(u32::from(amount)),
    }
}

// A delay, if there is room for the whole parts.
fn delayed(region: Region, rate: u32) -> Region
    requires { Valid region × PriceRoom most_amount (view region) × (rate ≤ most_amount) }
    ensures { Kept region result }
{
    if region.within([MOST_WHOLE; Region::MOST_TIMERS]) {
        return region.delay(rate);
    }
    region
}
