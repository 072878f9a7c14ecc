// How the values of a timer compare with a whole number v: all values with whole part w and a fraction of group g at once.
ghost use Rattle.std.specs.Prelude.{◌≡◌, ◌+◌, ◌<◌, leb, ltb};
ghost use Rattle.semantics.specs.Region.{high, meets_at};
ghost use Rattle.table.specs.Meaning.{comparison_of};

use crate::comparison::Comparison;

// By the code of a condition byte.
pub fn meets_at(code: u8, v: u8, w: u8, g: u8) -> bool
    ensures { result ≡ meets_at (comparison_of code) v w g }
{
    match Comparison::from(code) {
        Comparison::Less => w < v,
        Comparison::AtMost => at_most(v, w, g),
        Comparison::Equal => g == 0 && w == v,
        Comparison::AtLeast => v <= w,
        Comparison::Greater => above(v, w, g),
    }
}

pub fn at_most(v: u8, w: u8, g: u8) -> bool
    ensures { result ≡ leb (high w g) v }
{
    if g == 0 { w <= v } else { w < v }
}

fn above(v: u8, w: u8, g: u8) -> bool
    ensures { result ≡ ltb v (high w g) }
{
    if g == 0 { v < w } else { v <= w }
}

// Where they stand in half minutes.
pub fn half(w: u8, g: u8) -> u8
    requires { w < 127 }
    ensures { result ≡ w + high w g }
{
    if g == 0 { w + w } else { w + w + 1 }
}
