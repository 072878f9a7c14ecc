// What the methods of a region do to its arrays. Loops over the timers that are there go over the whole array, and pass over the rest: on the unit a
// loop of three turns unrolls, and one over a slice of n does not.
#![tactic(auto)]

ghost use Rattle.std.specs.Prelude.{◌≡◌, cond, ◌++◌, ◌∷◌, [], map, ℕ, suc, ◌+◌, ◌<◌, ◌≤◌, ◌^◌, min, eqb, get_or, take, drop};
ghost use Rattle.semantics.specs.Region.{count, risen, merge};
ghost use Rattle.semantics.specs.Regions.Renumber.{wrapped, lowered};
ghost use Rattle.table.specs.Fields.{most_timers};
ghost use Rattle.arrays.specs.Arrays.{most_corners, map_to};

use table::MOST_TIMERS;

// A region of three timers has up to four corners, each with its price.
pub const MOST_CORNERS: usize = MOST_TIMERS + 1;

// How many of the first n groups are g.
pub fn count_of(group: [u8; MOST_TIMERS], n: usize, g: u8) -> usize
    requires { n ≤ most_timers }
    ensures { result ≡ count g (take n group) }
{
    let mut found = 0;
    for h in group.iter().take(n) {
        if *h == g {
            found += 1;
        }
    }
    found
}

// Whether none of the first n groups is 0.
pub fn none_zero(group: [u8; MOST_TIMERS], n: usize) -> bool
    requires { n ≤ most_timers }
    ensures { result ≡ eqb (count 0 (take n group)) 0 }
{
    !group.iter().take(n).any(|g| *g == 0)
}

// Each of the first n groups is one higher.
pub fn raised(group: [u8; MOST_TIMERS], n: usize) -> [u8; MOST_TIMERS]
    requires { (n ≤ most_timers) × ((i : ℕ) → get_or group i 0 < 255) }
    ensures { result ≡ map_to suc n group }
{
    raised_by(group, n, 1)
}

// Each of the first n values is higher by a number.
pub fn raised_by(mut values: [u8; MOST_TIMERS], n: usize, by: u8) -> [u8; MOST_TIMERS]
    requires { (n ≤ most_timers) × ((i : ℕ) → get_or values i 0 + by < 256) }
    ensures { result ≡ map_to (λ v. v + by) n values }
{
    for (i, v) in values.iter_mut().enumerate() {
        if i < n {
            *v += by;
        }
    }
    values
}

// Each of the first n prices is greater by price. The same as `raised_by` over other numbers: their sum and its bound would need a trait.
pub fn charged(mut prices: [u32; MOST_CORNERS], n: usize, price: u32) -> [u32; MOST_CORNERS]
    requires { (n ≤ most_corners) × ((i : ℕ) → get_or prices i 0 + price < 2 ^ 32) }
    ensures { result ≡ map_to (λ c. c + price) n prices }
{
    for (i, c) in prices.iter_mut().enumerate() {
        if i < n {
            *c += price;
        }
    }
    prices
}

// The whole parts, those of group k one higher.
pub fn all_risen(k: u8, group: [u8; MOST_TIMERS], whole: [u8; MOST_TIMERS]) -> [u8; MOST_TIMERS]
    requires { (i : ℕ) → get_or whole i 0 < 255 }
    ensures { result ≡ risen k group whole }
{
    [
        rise(k, group[0], whole[0]),
        rise(k, group[1], whole[1]),
        rise(k, group[2], whole[2]),
    ]
}

// The groups, where group k becomes r0.
pub fn all_wrapped(k: u8, group: [u8; MOST_TIMERS]) -> [u8; MOST_TIMERS]
    ensures { result ≡ map (wrapped k) group }
{
    group.map(|g| if g == k { 0 } else { g })
}

// The groups, where group k is gone.
pub fn all_lowered(k: u8, group: [u8; MOST_TIMERS]) -> [u8; MOST_TIMERS]
    ensures { result ≡ map (lowered k) group }
{
    group.map(|g| lower(k, g))
}

// The first price is dropped.
pub fn shifted(prices: [u32; MOST_CORNERS]) -> [u32; MOST_CORNERS]
    ensures { result ≡ drop 1 prices ++ 0 ∷ [] }
{
    [prices[1], prices[2], prices[3], 0]
}

// The prices at i and i + 1 become one, the smaller.
pub fn merged(prices: [u32; MOST_CORNERS], i: usize) -> [u32; MOST_CORNERS]
    requires { i < 3 }
    ensures { result ≡ merge i prices ++ 0 ∷ [] }
{
    let [a, b, c, d] = prices;
    match i {
        0 => [a.min(b), c, d, 0],
        1 => [a, b.min(c), d, 0],
        _ => [a, b, c.min(d), 0],
    }
}

fn rise(k: u8, g: u8, w: u8) -> u8
    requires { w < 255 }
    ensures { result ≡ cond (eqb g k) (suc w) w }
{
    if g == k { w + 1 } else { w }
}

fn lower(k: u8, g: u8) -> u8
    ensures { result ≡ lowered k g }
{
    if k < g { g - 1 } else { g }
}
