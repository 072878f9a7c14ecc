// Why a call is refused.
ghost use Rattle.std.specs.Prelude.{◌≡◌};
ghost use Rattle.table.specs.Refusals.{number};

// The calls of every layer refuse by one of these. C and the programs tell a refusal by its number.
#[derive(Clone, Copy, Debug, PartialEq, Eq)]
pub enum Refusal {
    NoByteLeft = 1,
    OutOfRange,
    AbsentTimer,
    BadCode,
    NoSuchMode,
    BytesLeftOver,
    StartFails,
    TooManyNodes,
    TooFewWords,
    RouteTooLong,
    DestinationTooShort,
    NotClosed,
}

impl From<Refusal> for u8 {
    ghost from_gives = { λ refusal n. n ≡ number refusal };

    fn from(refusal: Refusal) -> u8 {
        refusal as u8
    }
}
