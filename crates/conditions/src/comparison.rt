// How a condition compares its timer with a number of minutes.
ghost use Rattle.std.specs.Prelude.{◌≡◌};
ghost use Rattle.table.specs.Meaning.{comparison_of};
ghost use Rattle.conditions.specs.Comparisons.{told};

// The five comparisons, in the order of their codes.
#[derive(Clone, Copy, Debug, PartialEq, Eq)]
pub enum Comparison {
    Less,
    AtMost,
    Equal,
    AtLeast,
    Greater,
}

// By the code of a condition byte. Code 0 is read as 1 and a code above 5 as 5: no table has them.
impl From<u8> for Comparison {
    ghost from_gives = { λ code comparison. told comparison ≡ comparison_of code };

    fn from(code: u8) -> Comparison {
        match code {
            0 | 1 => Comparison::Less,
            2 => Comparison::AtMost,
            3 => Comparison::Equal,
            4 => Comparison::AtLeast,
            _ => Comparison::Greater,
        }
    }
}
