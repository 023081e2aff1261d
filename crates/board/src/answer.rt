use crate::request::AccessKind;
use wire::message::Kind;

/// What a load or a store answers: its word within the call, or that it is open.
#[derive(Clone, Copy, PartialEq, Eq, Debug)]
pub enum AccessAnswer {
    Answered { word: u32 },
    Opened,
}

/// An access that was open, and is finished. A load's word is the one that it brings.
#[derive(Clone, Copy, PartialEq, Eq, Debug)]
pub struct Finished {
    pub board: u8,
    pub kind: AccessKind,
    pub address: u32,
    pub word: u32,
    pub hops: u8,
}

/// What a board answers to a message that arrives: that it moved, or the access that it finished.
#[derive(Clone, Copy, PartialEq, Eq, Debug)]
pub enum Arrival {
    Moved { board: u8, kind: Kind, hops: u8 },
    Finished(Finished),
}
