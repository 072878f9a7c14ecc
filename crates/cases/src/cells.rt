// `corners TIMERS`: how many corners of a cell have the number by which they were found.
ghost use Rattle.std.specs.Prelude.{◌≤◌};
ghost use Rattle.regions.specs.Held.{most_timers};

use crate::print;
use regions::{Region, nodes};

// Ceilings by which there is one cell, so that nodes have the numbers of its corners.
pub const ONE_CELL: [u8; Region::MOST_TIMERS] = [0; Region::MOST_TIMERS];

pub fn corners(rt: &impl Print, timers: usize)
    requires { (1 ≤ timers) × (timers ≤ most_timers) }
{
    print::with(rt, b"corners found again A\n", found_again(timers));
}

fn found_again(timers: usize) -> usize
    requires { (1 ≤ timers) × (timers ≤ most_timers) }
{
    let mut found: usize = 0;
    for number in 0..Region::corners(timers) {
        let at = nodes::region_at(timers, ONE_CELL, number);
        if nodes::node_of(0, at.region, at.index, ONE_CELL) == number {
            found += 1;
        }
    }
    found
}
