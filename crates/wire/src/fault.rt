ghost use Rattle.std.specs.Prelude.{◌≡◌};
ghost use Rattle.wire.specs.Faults.{number};

/// Why a call is refused, with the number that its refusal answers.
#[derive(Clone, Copy, PartialEq, Eq, Debug)]
pub enum Fault {
    NoSuchBoard = 1,
    NoSuchAddress = 2,
    AccessOpen = 3,
    BoardsOutOfRange = 4,
    PagesOutOfRange = 5,
    LimitTooLow = 6,
    LinkNotEmpty = 7,
    LimitOutOfRange = 8,
    LinkFull = 9,
    WrongLength = 10,
    NoSuchKind = 11,
    BadParties = 12,
    PageOrHopsTooLarge = 13,
    BrokenKindForm = 14,
    DoesNotBelong = 15,
    NotExpected = 16,
    BadForm = 17,
    OutOfPlace = 18,
}

impl From<Fault> for u16 {
    ghost from_gives = { λ fault n. n ≡ number fault };

    fn from(fault: Fault) -> u16 {
        fault as u16
    }
}
