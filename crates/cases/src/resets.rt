// `reset TIMERS RESETS WHOLE WHOLE WHOLE GROUP GROUP GROUP: PRICES`: the reset of several timers, of a region that is given by its parts.
ghost use Rattle.std.specs.Prelude.{◌≡◌, suc, ◌<◌, ◌≤◌, take};
ghost use Rattle.regions.specs.Held.{most_timers, most_corners, pad, Valid};
ghost use Rattle.regions.specs.Nodes.{Padded};

use crate::cells::ONE_CELL;
use crate::tokens::TOKENS;
use crate::{print, scripts};
use regions::{Region, nodes};

// Prints what becomes of the region.
pub fn reset(rt: &impl Print, numbers: &[usize; TOKENS], bytes: &[u8]) {
    let n = scripts::timers(numbers);
    let region = given(grouped(n, three(numbers, 6, n)), numbers, bytes);
    print::text(rt, b"reset");
    scripts::parts(rt, region.reset_all((numbers[2] % 256) as u8));
}

// The region with other whole parts and prices.
fn given(region: Region, numbers: &[usize; TOKENS], bytes: &[u8]) -> Region
    requires { Valid region }
    ensures { Valid result }
{
    Region {
        whole: three(numbers, 3, usize::from(region.timers)),
        prices: prices(bytes, region.top),
        ..region
    }
}

// The first n of three numbers from a place on, and 0 behind them.
fn three(numbers: &[usize; TOKENS], at: usize, n: usize) -> [u8; Region::MOST_TIMERS]
    requires { (at < 1000) × (1 ≤ n) × (n ≤ most_timers) }
    ensures { Padded n result }
{
    let mut three = [
        (numbers[at] % 256) as u8,
        (numbers[at + 1] % 256) as u8,
        (numbers[at + 2] % 256) as u8,
    ];
    three[n..].fill(0);
    three
}

// The prices c0 to c(top), and 0 behind them.
fn prices(bytes: &[u8], top: u8) -> [u32; Region::MOST_CORNERS]
    requires { top < most_corners }
    ensures { result ≡ pad most_corners (take (suc top) result) }
{
    let mut prices = [
        price(bytes, 0),
        price(bytes, 4),
        price(bytes, 8),
        price(bytes, 12),
    ];
    prices[usize::from(top) + 1..].fill(0);
    prices
}

// A price from its four bytes; 0 where they are not there.
fn price(bytes: &[u8], at: usize) -> u32
    requires { at < 1000 }
{
    if bytes.len() < at + 4 {
        return 0;
    }
    u32::from_be_bytes([bytes[at], bytes[at + 1], bytes[at + 2], bytes[at + 3]])
}

// A region with the groups, found among those of a cell. Where none has them, it is the start region.
fn grouped(timers: usize, groups: [u8; Region::MOST_TIMERS]) -> Region
    requires { (1 ≤ timers) × (timers ≤ most_timers) }
    ensures { Valid result }
{
    for number in 0..Region::corners(timers) {
        let at = nodes::region_at(timers, ONE_CELL, number);
        if at.region.group == groups {
            return at.region;
        }
    }
    Region::start(timers)
}
