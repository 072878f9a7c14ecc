// Layer 2: priced regions of one to three timers, by value, and the corners of a cell by their numbers.
#![tactic(auto)]

ghost use Rattle.std.specs.Prelude.{◌≡◌, true, false, ◌∷◌, [], ◌<◌, ◌≤◌, take};
ghost use Rattle.semantics.specs.Region.{top, no_zero, alone, start, leave, arrive, delay, linger, reset, reset_all, charge, meets, within};
ghost use Rattle.semantics.specs.Regions.Windows.{half};
ghost use Rattle.semantics.specs.NodeCount.{corner_count};
ghost use Rattle.semantics.specs.Corners.Corner.{corner_of, corner_number};
ghost use Rattle.table.specs.Meaning.{named_timers, condition_of};
ghost use Rattle.regions.specs.Held.{most_timers, most_corners, pad, pack, view, Valid, PriceRoom, WholeRoom, HalfRoom};

use conditions::compare;
use corners::tables;

pub mod nodes;

// A region with its corner prices: of each timer its whole part and the number of its group, and the prices c0 to c(top). Of `whole` and
// `group` the first `timers` entries are used, of `prices` the first `top + 1`; the others are 0. The struct has 24 bytes.
#[derive(Clone, Copy)]
pub struct Region {
    pub timers: u8,
    pub top: u8,
    pub whole: [u8; Region::MOST_TIMERS],
    pub group: [u8; Region::MOST_TIMERS],
    pub prices: [u32; Region::MOST_CORNERS],
}

impl Region {
    pub const MOST_TIMERS: usize = table::MOST_TIMERS;

    pub const MOST_CORNERS: usize = arrays::MOST_CORNERS;

    // "The start region has all timers in r0 and the single price 0."
    pub fn start(timers: usize) -> Region
        requires { timers ≤ most_timers }
        ensures { result ≡ pack (start timers) }
    {
        Region {
            timers: timers as u8,
            top: 0,
            whole: [0; Region::MOST_TIMERS],
            group: [0; Region::MOST_TIMERS],
            prices: [0; Region::MOST_CORNERS],
        }
    }

    // Time passes until the region is left.
    pub fn delay(self, rate: u32) -> Region
        requires { Valid self × PriceRoom rate (view self) × WholeRoom (view self) }
        ensures { result ≡ pack (delay rate (view self)) }
    {
        if self.no_zero() {
            self.arrive()
        } else {
            self.leave(rate)
        }
    }

    // "Linger, r0 empty: ck becomes the smaller of ck and c0 + rate. Otherwise nothing changes."
    pub fn linger(mut self, rate: u32) -> Region
        requires { Valid self × PriceRoom rate (view self) }
        ensures { result ≡ pack (linger rate (view self)) }
    {
        if self.no_zero() {
            let top = usize::from(self.top);
            self.prices[top] = self.prices[top].min(self.prices[0] + rate);
        }
        self
    }

    // "Reset of one timer: its whole part becomes 0 and it joins r0." A timer that the region does not have changes nothing.
    pub fn reset(self, timer: usize) -> Region
        requires { Valid self × (timer < most_timers) }
        ensures { result ≡ pack (reset timer (view self)) }
    {
        if self.alone(timer) {
            self.reset_alone(timer)
        } else {
            self.reset_joined(timer)
        }
    }

    // "Several timers are reset one after another": those that a reset byte names, "from the highest number to the lowest".
    pub fn reset_all(self, resets: u8) -> Region
        requires { Valid self }
        ensures { result ≡ pack (reset_all (named_timers resets) (view self)) }
    {
        let mut region = self;
        for timer in (0..Region::MOST_TIMERS).rev() {
            if (resets >> timer) % 2 == 1 {
                region = region.reset(timer);
            }
        }
        region
    }

    // "Charge: the move's price is added to every corner."
    pub fn charge(mut self, price: u32) -> Region
        requires { Valid self × PriceRoom price (view self) }
        ensures { result ≡ pack (charge price (view self)) }
    {
        self.prices = arrays::charged(self.prices, self.top() + 1, price);
        self
    }

    // Whether all points of the region meet a condition byte on the timer: "its corners need not". The byte 0 of a `Table`, which stands for no
    // condition, is for the caller to pass over.
    pub fn meets(self, timer: usize, condition: u8) -> bool
        requires { Valid self × (timer < most_timers) }
        ensures { result ≡ meets (condition_of timer condition) (view self) }
    {
        compare::meets_at(
            condition / 16,
            condition % 16,
            self.whole[timer],
            self.group[timer],
        )
    }

    // Whether all points of the region have each timer at or below its ceiling. Ceilings past the last timer play no part.
    // Three arrays go in step, so the loop goes by the number of the timer.
    pub fn within(self, ceilings: [u8; Region::MOST_TIMERS]) -> bool
        requires { Valid self }
        ensures { result ≡ within (take self.timers ceilings) (view self) }
    {
        let n = usize::from(self.timers);
        for timer in 0..Region::MOST_TIMERS {
            if n <= timer {
                return true;
            }
            if !compare::at_most(ceilings[timer], self.whole[timer], self.group[timer]) {
                return false;
            }
        }
        true
    }

    // k, the number of the highest group: the corners have the indices 0 to k.
    pub fn top(self) -> usize
        requires { Valid self }
        ensures { result ≡ top (view self) }
    {
        usize::from(self.top)
    }

    // The prices of the corners, and 0 behind them.
    pub fn prices(self) -> [u32; Region::MOST_CORNERS]
        requires { Valid self }
        ensures { result ≡ pad most_corners (view self).prices }
    {
        self.prices
    }

    // Where each timer stands in half minutes: at an even place on a whole minute, at an odd one between two. A timer that is not there is at 0.
    pub fn halves(self) -> [u8; Region::MOST_TIMERS]
        requires { Valid self × HalfRoom (view self) }
        ensures { result ≡ half (view self) 0 ∷ half (view self) 1 ∷ half (view self) 2 ∷ [] }
    {
        [
            compare::half(self.whole[0], self.group[0]),
            compare::half(self.whole[1], self.group[1]),
            compare::half(self.whole[2], self.group[2]),
        ]
    }

    // "The corners of a cell number 3, 13 or 75 for one, two or three timers."
    pub fn corners(timers: usize) -> usize
        requires { timers ≤ most_timers }
        ensures { result ≡ corner_count timers 1 }
    {
        tables::corner_count(timers) as usize
    }

    // The number, among the corners of the cell, of the corner whose price has the index.
    fn corner(self, index: usize) -> usize
        requires { Valid self × (index ≤ self.top) }
        ensures { result ≡ corner_number self.timers (corner_of (view self) index) }
    {
        let [a, b, c] = self.group;
        let place = 16 * (self.timers - 1 + c) + 4 * a + b;
        usize::from(tables::first_corner(usize::from(place))) + index
    }

    // Whether r0 is empty.
    fn no_zero(self) -> bool
        requires { Valid self }
        ensures { result ≡ no_zero (view self) }
    {
        arrays::none_zero(self.group, usize::from(self.timers))
    }

    // "Delay, r0 not empty: every group moves up one place, r0 is empty, and c0 + rate is added at the end."
    fn leave(mut self, rate: u32) -> Region
        requires { Valid self × PriceRoom rate (view self) × (no_zero (view self) ≡ false) }
        ensures { result ≡ pack (leave rate (view self)) }
    {
        self.top += 1;
        self.group = arrays::raised(self.group, usize::from(self.timers));
        self.prices[usize::from(self.top)] = self.prices[0] + rate;
        self
    }

    // "Delay, r0 empty: rk becomes r0, its whole parts rise by 1, c0 is dropped."
    fn arrive(self) -> Region
        requires { Valid self × WholeRoom (view self) × (no_zero (view self) ≡ true) }
        ensures { result ≡ pack (arrive (view self)) }
    {
        Region {
            top: self.top - 1,
            whole: arrays::all_risen(self.top, self.group, self.whole),
            group: arrays::all_wrapped(self.top, self.group),
            prices: arrays::shifted(self.prices),
            ..self
        }
    }

    // Whether the timer is alone in its group, which is not r0.
    fn alone(self, timer: usize) -> bool
        requires { Valid self × (timer < most_timers) }
        ensures { result ≡ alone timer (view self).group }
    {
        let g = self.group[timer];
        0 < g && arrays::count_of(self.group, usize::from(self.timers), g) == 1
    }

    // "If it was alone in ri, i at least 1, the prices c(k-i) and c(k-i+1) become one, the smaller."
    fn reset_alone(mut self, timer: usize) -> Region
        requires { Valid self × (timer < most_timers) × (alone timer (view self).group ≡ true) }
        ensures { result ≡ pack (reset timer (view self)) }
    {
        let g = self.group[timer];
        self.prices = arrays::merged(self.prices, usize::from(self.top - g));
        self.group = arrays::all_lowered(g, self.group);
        self.top -= 1;
        self.whole[timer] = 0;
        self.group[timer] = 0;
        self
    }

    // The timer was in r0, or it leaves other timers in its group.
    fn reset_joined(mut self, timer: usize) -> Region
        requires { Valid self × (timer < most_timers) × (alone timer (view self).group ≡ false) }
        ensures { result ≡ pack (reset timer (view self)) }
    {
        self.whole[timer] = 0;
        self.group[timer] = 0;
        self
    }
}
