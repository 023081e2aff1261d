ghost use Rattle.std.specs.Prelude.{◌≡◌};
ghost use Rattle.board.specs.Posts.{asks_by};
ghost use Rattle.board.specs.Steps.{request_in};

use wire::message::{Kind, Message};

/// What an access does.
#[derive(Clone, Copy, PartialEq, Eq, Debug)]
pub enum AccessKind {
    Load,
    Store,
}

impl AccessKind {
    /// The kind of the request that an access asks by.
    pub(crate) fn asks_by(self) -> Kind
        ensures { result ≡ asks_by self }
    {
        match self {
            AccessKind::Load => Kind::ReadRequest,
            AccessKind::Store => Kind::WriteRequest,
        }
    }
}

/// A request for a page, as it is served or waits at a board.
#[derive(Clone, Copy, PartialEq, Eq, Debug)]
pub struct Request {
    pub kind: AccessKind,
    pub asker: u8,
    pub hops: u8,
}

impl Request {
    pub const BLANK: Request = Request {
        kind: AccessKind::Load,
        asker: 0,
        hops: 0,
    };

    /// The request that a message carries.
    pub(crate) fn in_message(message: &Message) -> Request
        ensures { result ≡ request_in message.now }
    {
        let kind = match message.kind {
            Kind::WriteRequest => AccessKind::Store,
            _ => AccessKind::Load,
        };
        Request {
            kind,
            asker: message.asker,
            hops: message.hops,
        }
    }
}
