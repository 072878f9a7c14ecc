// Single bytes of a table as they are written: where the conditions of a record stand, the bit map that says which of its fields are there, and a pen
// with one method for each kind of byte, which puts it behind those that are there.
#![tactic(auto)]

ghost use Rattle.std.specs.Prelude.{ℕ, ◌≡◌, [], ◌∷◌, ◌++◌, ◌≤◌, ◌<◌, true, Ok};
ghost use Rattle.reader.specs.Format.{between};
ghost use Rattle.parts.specs.Part.{checked, unless_zero};
ghost use Rattle.parts.specs.Format.{bit_of, bits_of, map_byte, amount_byte};
ghost use Rattle.parts.specs.Compact.{first_of, further_of, compact};
ghost use Rattle.parts.specs.Overlays.{OverlaysBy, Overlays};

mod pens;

pub use pens::Pen;
use reader::CONDITIONS;
use table::names;
use table::refusals::Refusal;

// Of the two conditions on a timer, the one that stands in the first place.
pub fn first_of(a: u8, b: u8) -> u8
    ensures { result ≡ first_of a b }
{
    if a == 0 { b } else { a }
}

// And the one in the further place.
fn further_of(a: u8, b: u8) -> u8
    ensures { result ≡ further_of a b }
{
    if a == 0 { 0 } else { b }
}

// An only condition on a timer in the first of its two places.
pub fn compact(six: [u8; CONDITIONS]) -> [u8; CONDITIONS]
    ensures { result ≡ compact six }
{
    [
        first_of(six[0], six[3]),
        first_of(six[1], six[4]),
        first_of(six[2], six[5]),
        further_of(six[0], six[3]),
        further_of(six[1], six[4]),
        further_of(six[2], six[5]),
    ]
}

// 1 where the field is there.
pub fn bit_of(b: u8) -> u8
    ensures is { result ≡ bit_of b }
    ensures small { result ≤ 1 }
{
    u8::from(b != 0)
}

// The bits of three fields.
fn three(a: u8, b: u8, c: u8) -> u8
    ensures is { result ≡ bits_of (a ∷ b ∷ c ∷ []) }
    ensures small { result ≤ 7 }
{
    bit_of(a) + 2 * bit_of(b) + 4 * bit_of(c)
}

// A bit map: the low byte, six conditions, and what bit 7 is for. A caller that took the low byte from an array learns here that it is one.
pub fn bits(low: u8, six: [u8; CONDITIONS], last: u8) -> u8
    ensures is { result ≡ bits_of (low ∷ (six ++ last ∷ [])) }
    ensures byte { low < 256 }
{
    let first = three(six[0], six[1], six[2]);
    let further = three(six[3], six[4], six[5]);
    bit_of(low) + 2 * first + 16 * further + 128 * bit_of(last)
}

// From least to most.
pub fn between(b: u8, least: u8, most: u8) -> bool
    ensures { result ≡ between least most b }
{
    (least..=most).contains(&b)
}

impl Pen {
    // A byte.
    fn put(&mut self, b: u8)
        requires { self.old.at < 919 }
        ensures { Overlays (checked true 0 b) self.old (Ok tt) self.new }
    {
        self.bytes[self.at] = b;
        self.at += 1;
    }

    // A byte; where it does not pass its test it is refused. This holds by each numbering of refusals in which it is not 0.
    pub fn checked<E: Copy>(&mut self, b: u8, passes: bool, refusal: E) -> Result<(), E>
        requires { self.old.at < 919 }
        ensures { (n : E → ℕ) → 0 < n refusal → OverlaysBy n (checked passes (n refusal) b) self.old result self.new }
    {
        if !passes {
            return Err(refusal);
        }
        self.put(b);
        Ok(())
    }

    // A count, a goal or a ceiling from least to most.
    pub fn counted(&mut self, b: u8, least: u8, most: u8) -> Result<(), Refusal>
        requires { self.old.at < 919 }
        ensures { Overlays (checked (between least most b) 2 b) self.old result self.new }
    {
        self.checked(b, between(b, least, most), Refusal::OutOfRange)
    }

    // The same as `checked`, left out where it is 0.
    pub fn unless_zero<E: Copy>(&mut self, b: u8, passes: bool, refusal: E) -> Result<(), E>
        requires { self.old.at < 919 }
        ensures { (n : E → ℕ) → 0 < n refusal → OverlaysBy n (unless_zero passes (n refusal) b) self.old result self.new }
    {
        if b == 0 {
            return Ok(());
        }
        self.checked(b, passes, refusal)
    }

    // A byte of a rate or price, left out where it is 0.
    pub fn amount_byte(&mut self, b: u8)
        requires { self.old.at < 919 }
        ensures { Overlays (amount_byte b) self.old (Ok tt) self.new }
    {
        if 0 < b {
            self.put(b);
        }
    }

    // A bit map, refused where a condition is on an absent timer.
    pub fn map_byte(&mut self, map: u8, timers: u8) -> Result<(), Refusal>
        requires { (timers ≤ 3) × (self.old.at < 919) }
        ensures { Overlays (map_byte timers map) self.old result self.new }
    {
        let limit = names(timers);
        let first = map / 2 % 8 < limit;
        let further = map / 16 % 8 < limit;
        self.checked(map, first & further, Refusal::AbsentTimer)
    }
}
