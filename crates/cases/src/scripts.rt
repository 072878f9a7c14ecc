// `region TIMERS STEP STEP ..`: operations on a region, from the start region on, and tests of it. A step is a letter and a number.
ghost use Rattle.std.specs.Prelude.{◌≤◌};
ghost use Rattle.regions.specs.Held.{most_timers, view, Valid, PriceRoom};
ghost use Rattle.cases.specs.Kept.{most_amount, Kept};

use crate::operations::Operation;
use crate::tokens::{LETTER, TOKENS};
use crate::{operations, print};
use regions::Region;

// Prints the start region, then each step with what comes of it.
pub fn region(rt: &impl Print, numbers: &[usize; TOKENS]) {
    let mut region = Region::start(timers(numbers));
    print::text(rt, b"start");
    parts(rt, region);
    for &step in &numbers[2..] {
        if step == 0 {
            return;
        }
        region = stepped(rt, region, step);
    }
}

// The number of timers, 1 to 3. One more than that counts from 1 again.
pub fn timers(numbers: &[usize; TOKENS]) -> usize
    ensures { (1 ≤ result) × (result ≤ most_timers) }
{
    (numbers[1] % LETTER + 2) % 3 + 1
}

// The region after a step, which is printed with what came of it. A test changes nothing; that of a condition, behind x, y and z, has its byte in
// hexadecimal.
fn stepped(rt: &impl Print, region: Region, step: usize) -> Region
    requires { Valid region × PriceRoom most_amount (view region) }
    ensures { Kept region result }
{
    let letter = (step / LETTER % 256) as u8;
    let amount = (step % 65536) as u16;
    let after = match Operation::of_letter(letter) {
        Some(operation) => operations::operated(region, operation, amount),
        None => region,
    };
    let text = [letter, b'A' + letter / b'x' * 7];
    print::with(rt, &text, usize::from(amount));
    if letter < b'w' {
        parts(rt, after);
    } else {
        verdict(rt, met(after, letter, (amount % 256) as u8));
    }
    after
}

// The whole parts, the groups and the prices, and the end of their line.
pub fn parts(rt: &impl Print, region: Region) {
    let timers = usize::from(region.timers);
    print::text(rt, b": whole");
    print::list(rt, &region.whole, timers);
    print::text(rt, b" groups");
    print::list(rt, &region.group, timers);
    print::text(rt, b" prices");
    print::list(rt, &region.prices, usize::from(region.top) + 1);
    print::text(rt, b"\n");
}

// Whether the region is within one ceiling for every timer, behind w; or meets a condition on timer 0, 1 or 2, behind x, y or z.
fn met(region: Region, letter: u8, byte: u8) -> bool
    requires { Valid region }
{
    if letter == b'w' {
        return region.within([byte; Region::MOST_TIMERS]);
    }
    region.meets(usize::from(letter % 3), byte)
}

fn verdict(rt: &impl Print, met: bool) {
    if met {
        print::text(rt, b": met\n");
    } else {
        print::text(rt, b": not met\n");
    }
}
