use wire::fault::Fault;
use wire::message::{Kind, Message};

mod kits;
mod links;
mod lone_accesses;
mod lone_crowds;
mod lone_finishing;
mod lone_fixtures;
mod lone_foolish;
mod lone_invalidates;
mod lone_links;
mod lone_messages;
mod lone_refusals;
mod lone_requests;
mod message_records;
mod players;
mod scripts;
mod streams;

/// The number of a refusal, or 0: so the tables of the tests have a number in each row.
fn refusal<T: Drop>(r: Result<T, Fault>) -> u16 {
    match r {
        Ok(_) => 0,
        Err(fault) => u16::from(fault),
    }
}

/// A message without words or a copy set.
fn bare(kind: Kind, page: u32, from: u8, to: u8, asker: u8, hops: u8) -> Message {
    Message {
        kind,
        page,
        from,
        to,
        asker,
        hops,
        ..Message::BLANK
    }
}
