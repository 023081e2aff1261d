ghost use Rattle.std.specs.Prelude.{◌≡◌};
ghost use Rattle.std.specs.Option.{ok_or};
ghost use Rattle.wire.specs.Kinds.{kind_number, kind_numbered};
ghost use Rattle.wire.specs.Messages.{blank};
ghost use Rattle.wire.specs.declared.fault.Fault.TheVariants.{NoSuchKind};

use crate::board_set::BoardSet;
use crate::fault::Fault;

/// What a message is for, with its number in records and listings.
#[derive(Clone, Copy, PartialEq, Eq, Debug)]
pub enum Kind {
    ReadRequest = 1,
    WriteRequest = 2,
    Copy = 3,
    Grant = 4,
    Invalidate = 5,
    Acknowledgement = 6,
}

impl From<Kind> for u8 {
    ghost from_gives = { λ kind n. n ≡ kind_number kind };

    fn from(kind: Kind) -> u8 {
        kind as u8
    }
}

impl TryFrom<u8> for Kind {
    type Error = Fault;

    ghost try_from_gives = { λ n r. r ≡ ok_or (kind_numbered n) NoSuchKind };

    fn try_from(number: u8) -> Result<Kind, Fault> {
        match number {
            1 => Ok(Kind::ReadRequest),
            2 => Ok(Kind::WriteRequest),
            3 => Ok(Kind::Copy),
            4 => Ok(Kind::Grant),
            5 => Ok(Kind::Invalidate),
            6 => Ok(Kind::Acknowledgement),
            _ => Err(Fault::NoSuchKind),
        }
    }
}

/// The most hops that a message can have.
pub const MOST_HOPS: u8 = 14;

/// What boards send each other. `from` posts it, `asker` is the board whose access it serves, `copies` is a copy set.
#[derive(Clone, Copy, PartialEq, Eq, Debug)]
pub struct Message {
    pub kind: Kind,
    pub page: u32,
    pub from: u8,
    pub to: u8,
    pub asker: u8,
    pub hops: u8,
    pub copies: BoardSet,
    pub words: [u32; 16],
}

impl Message {
    pub const BLANK: Message = Message {
        kind: Kind::ReadRequest,
        page: 0,
        from: 0,
        to: 0,
        asker: 0,
        hops: 0,
        copies: BoardSet::EMPTY,
        words: [0; 16],
    };
}

// What stands at the places of a row that no message waits at. By hand, since a kind has no default of its own.
impl Default for Message {
    ghost is_default = { λ message. message ≡ blank };

    fn default() -> Message {
        Message::BLANK
    }
}
