use super::{bare, refusal};
use board::answer::{AccessAnswer, Arrival, Finished};
use board::entry::{Access, PageEntry};
use board::request::{AccessKind, Request};
use board::stage::{ClearingStore, OpenLoad, OpenStore, Stage};
use lone::lone_board::LoneBoard;
use std::array::from_fn;
use std::process::Abort;
use wire::board_set::BoardSet;
use wire::fault::Fault;
use wire::link::Link;
use wire::message::{Kind, Message};

/// The words of a page that count up from `first`, so that no two places have the same.
pub(super) fn counting(first: u32) -> [u32; 16] {
    from_fn(|place| first.wrapping_add(place as u32))
}

pub(super) fn read_request(page: u32, from: u8, to: u8, asker: u8, hops: u8) -> Message {
    bare(Kind::ReadRequest, page, from, to, asker, hops)
}

pub(super) fn write_request(page: u32, from: u8, to: u8, asker: u8, hops: u8) -> Message {
    bare(Kind::WriteRequest, page, from, to, asker, hops)
}

pub(super) fn copy(page: u32, from: u8, to: u8, hops: u8, words: [u32; 16]) -> Message {
    Message {
        words,
        ..bare(Kind::Copy, page, from, to, to, hops)
    }
}

/// A grant, with bit i of `copies` for board i.
pub(super) fn grant(
    page: u32,
    from: u8,
    to: u8,
    hops: u8,
    copies: u16,
    words: [u32; 16],
) -> Message {
    Message {
        copies: BoardSet::from_bits(copies),
        words,
        ..bare(Kind::Grant, page, from, to, to, hops)
    }
}

pub(super) fn invalidate(page: u32, from: u8, to: u8) -> Message {
    bare(Kind::Invalidate, page, from, to, from, 0)
}

pub(super) fn acknowledgement(page: u32, from: u8, to: u8) -> Message {
    bare(Kind::Acknowledgement, page, from, to, to, 0)
}

/// Board 2 of 4, after a load that board 3 served: it has a copy of page 1.
pub(super) fn with_copy<L: Link>(link: &mut L) -> Result<LoneBoard, Fault> {
    let mut board = LoneBoard::new(2, 4, 2)?;
    board.load(20, link)?;
    link.take(0);
    board.arrive(&copy(1, 3, 2, 0, counting(100)), link)?;
    Ok(board)
}

/// Board 2, whose store of 7 at address 20 has asked for page 1.
pub(super) fn storing<L: Link>(boards: u8, link: &mut L) -> Result<LoneBoard, Fault> {
    let mut board = LoneBoard::new(2, boards, 2)?;
    board.store(20, 7, link)?;
    link.take(0);
    Ok(board)
}

/// The entry for a page, where there is such a page.
pub(super) fn entry(board: &LoneBoard, page: u32) -> Option<PageEntry> {
    board.entry(page).copied()
}

/// What an entry should be, with bit i of `copies` for board i.
pub(super) fn holds(access: Access, hint: u8, copies: u16, words: [u32; 16]) -> Option<PageEntry> {
    Some(PageEntry {
        access,
        hint,
        copies: BoardSet::from_bits(copies),
        words,
    })
}

pub(super) fn load_asked(address: u32, deferred: Option<u8>) -> Stage {
    Stage::LoadAsked(OpenLoad { address, deferred })
}

pub(super) fn store_asked(address: u32, word: u32) -> Stage {
    Stage::StoreAsked(OpenStore { address, word })
}

/// A store that awaits acknowledgements, with bit i of `awaited` for board i.
pub(super) fn clearing(address: u32, word: u32, awaited: u16, hops: u8) -> Stage {
    Stage::Clearing(ClearingStore {
        store: OpenStore { address, word },
        awaited: BoardSet::from_bits(awaited),
        hops,
    })
}

pub(super) fn reader(asker: u8, hops: u8) -> Request {
    Request {
        kind: AccessKind::Load,
        asker,
        hops,
    }
}

pub(super) fn writer(asker: u8, hops: u8) -> Request {
    Request {
        kind: AccessKind::Store,
        asker,
        hops,
    }
}

pub(super) fn moved(board: u8, kind: Kind, hops: u8) -> Arrival {
    Arrival::Moved { board, kind, hops }
}

pub(super) fn loaded(board: u8, address: u32, word: u32, hops: u8) -> Arrival {
    Arrival::Finished(Finished {
        board,
        kind: AccessKind::Load,
        address,
        word,
        hops,
    })
}

pub(super) fn stored(board: u8, address: u32, word: u32, hops: u8) -> Arrival {
    Arrival::Finished(Finished {
        board,
        kind: AccessKind::Store,
        address,
        word,
        hops,
    })
}

pub(super) fn expect_entry(rt: &impl Abort, board: &LoneBoard, page: u32, held: Option<PageEntry>) {
    assert_eq!(rt; entry(board, page), held);
}

pub(super) fn expect_stage(rt: &impl Abort, board: &LoneBoard, stage: Stage) {
    assert_eq!(rt; board.stage(), stage);
}

/// What a load or a store answers.
pub(super) fn expect_answer(
    rt: &impl Abort,
    answered: Result<AccessAnswer, Fault>,
    answer: AccessAnswer,
) {
    assert_eq!(rt; answered, Ok(answer));
}

/// What a message that arrives is answered.
pub(super) fn expect_arrival(rt: &impl Abort, answered: Result<Arrival, Fault>, answer: Arrival) {
    assert_eq!(rt; answered, Ok(answer));
}

/// The number of a refusal, or 0.
pub(super) fn expect_number<T: Drop>(rt: &impl Abort, answered: Result<T, Fault>, number: u16) {
    assert_eq!(rt; refusal(answered), number);
}

/// Takes all that waits on a link: these messages in this order, and no other.
pub(super) fn expect_posts<L: Link>(rt: &impl Abort, link: &mut L, posts: &[Message]) {
    for post in posts {
        assert_eq!(rt; link.take(0), Some(*post));
    }
    assert_eq!(rt; link.count(), 0);
}

/// The requests that wait at a board are these, in this order.
pub(super) fn expect_waiting(rt: &impl Abort, board: &LoneBoard, requests: &[Request]) {
    assert!(rt; board.waiting() == requests);
}
