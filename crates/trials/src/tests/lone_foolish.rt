use super::bare;
use super::lone_fixtures::{
    acknowledgement, clearing, copy, counting, entry, expect_arrival, expect_entry, expect_number,
    expect_posts, expect_stage, expect_waiting, grant, holds, invalidate, load_asked, loaded,
    read_request, reader, store_asked, stored, write_request, writer,
};
use board::entry::{Access, PageEntry};
use board::request::Request;
use board::stage::Stage;
use lone::lone_board::LoneBoard;
use std::array::from_fn;
use std::process::Abort;
use std::test::Fail;
use wire::fault::Fault;
use wire::link::Link;
use wire::message::{Kind, Message};
use wire::queue::Queue;

/// All that a board lets be seen.
#[derive(Clone, Copy, PartialEq, Eq, Debug)]
struct Seen {
    number: u8,
    stage: Stage,
    waiting: [Option<Request>; 16],
    entries: [Option<PageEntry>; 17],
}

fn snapshot(board: &LoneBoard) -> Seen {
    Seen {
        number: board.number(),
        stage: board.stage(),
        waiting: from_fn(|place| board.waiting().get(place).copied()),
        entries: from_fn(|page| entry(board, page as u32)),
    }
}

/// Each message is refused with its number, and nothing has changed at the board or on the link.
fn expect_refused<L: Link>(
    rt: &impl Abort,
    board: &mut LoneBoard,
    link: &mut L,
    cases: &[(Message, u16)],
) {
    let before = snapshot(board);
    let count = link.count();
    for (message, number) in cases {
        expect_number(rt, board.arrive(message, link), *number);
        assert!(rt; snapshot(board) == before);
        assert_eq!(rt; link.count(), count);
    }
}

/// Messages that board 2 of 4, with 2 pages, refuses at every stage.
fn foreign() -> [(Message, u16); 20] {
    let words = counting(900);
    [
        (read_request(1, 16, 2, 1, 0), 12),
        (write_request(1, 1, 2, 16, 0), 12),
        (invalidate(1, 2, 2), 12),
        (acknowledgement(1, 3, 255), 12),
        (read_request(16, 1, 2, 1, 0), 13),
        (write_request(1, 1, 2, 1, 15), 13),
        (copy(1, 0, 2, 15, words), 13),
        (bare(Kind::Copy, 1, 0, 2, 0, 0), 14),
        (grant(1, 0, 2, 0, 0b0100, words), 14),
        (bare(Kind::Invalidate, 1, 3, 2, 2, 0), 14),
        (bare(Kind::Acknowledgement, 1, 3, 2, 2, 1), 14),
        (copy(1, 0, 3, 0, words), 15),
        (grant(1, 2, 0, 0, 0, words), 15),
        (invalidate(1, 3, 1), 15),
        (acknowledgement(1, 3, 0), 15),
        (read_request(1, 4, 2, 1, 0), 15),
        (write_request(1, 1, 2, 4, 0), 15),
        (grant(1, 0, 2, 0, 0b1_0000, words), 15),
        (copy(2, 0, 2, 0, words), 15),
        (acknowledgement(15, 3, 2), 15),
    ]
}

/// Messages that board 2 expects at no stage, where it owns page 0 and has no access open there.
fn unexpected() -> [(Message, u16); 8] {
    [
        (copy(0, 0, 2, 0, counting(900)), 16),
        (grant(0, 0, 2, 0, 0, counting(900)), 16),
        (invalidate(0, 0, 2), 16),
        (acknowledgement(0, 3, 2), 16),
        (read_request(0, 1, 2, 2, 0), 16),
        (read_request(1, 1, 2, 2, 0), 16),
        (write_request(0, 1, 2, 2, 14), 16),
        (write_request(1, 1, 2, 2, 14), 16),
    ]
}

/// What is refused at every stage is refused.
fn expect_foolish<L: Link>(rt: &impl Abort, board: &mut LoneBoard, link: &mut L) {
    expect_refused(rt, board, link, &foreign());
    expect_refused(rt, board, link, &unexpected());
}

/// While an access is open, loads and stores are refused, and nothing has changed.
fn expect_no_access<L: Link>(rt: &impl Abort, board: &mut LoneBoard, link: &mut L) {
    let before = snapshot(board);
    let cases: [(u32, u16); 4] = [(3, 3), (20, 3), (31, 3), (32, 2)];
    for (address, number) in cases {
        expect_number(rt, board.load(address, link), number);
        expect_number(rt, board.store(address, 6, link), number);
        assert!(rt; snapshot(board) == before);
        assert_eq!(rt; link.count(), 0);
    }
}

/// Board 2 of 4, with 2 pages: it owns page 0, where its own store put 5 at place 3.
fn owner_of_one<L: Link>(link: &mut L) -> Result<LoneBoard, Fault> {
    let mut board = LoneBoard::new(2, 4, 2)?;
    board.store(3, 5, link)?;
    link.take(0);
    board.arrive(&grant(0, 0, 2, 0, 0, [0; 16]), link)?;
    Ok(board)
}

#[test]
fn while_idle(rt: HostRuntime) -> Result<(), Fail> {
    let mut link = Queue::new(16)?;
    let mut board = owner_of_one(&mut link)?;
    expect_foolish(&rt, &mut board, &mut link);
    let cases = [
        (copy(1, 0, 2, 0, counting(900)), 16),
        (grant(1, 0, 2, 0, 0, counting(900)), 16),
        (grant(1, 0, 2, 0, 0b1010, counting(900)), 16),
        (acknowledgement(1, 0, 2), 16),
        (acknowledgement(1, 3, 2), 16),
    ];
    expect_refused(&rt, &mut board, &mut link, &cases);
    let words = [0, 0, 0, 5, 0, 0, 0, 0, 0, 0, 0, 0, 0, 0, 0, 0];
    expect_entry(&rt, &board, 0, holds(Access::Write, 2, 0, words));
    expect_entry(&rt, &board, 1, holds(Access::None, 0, 0, [0; 16]));
    expect_stage(&rt, &board, Stage::Idle);
    Ok(())
}

/// Messages that a board whose load has asked for page 1 does not expect, while a request of board 3 waits there.
fn under_a_load() -> [(Message, u16); 7] {
    [
        (grant(1, 0, 2, 0, 0, counting(900)), 16),
        (grant(1, 0, 2, 0, 0b1010, counting(900)), 16),
        (acknowledgement(1, 0, 2), 16),
        (acknowledgement(1, 3, 2), 16),
        (read_request(1, 3, 2, 3, 0), 16),
        (write_request(1, 1, 2, 3, 4), 16),
        (read_request(0, 3, 2, 3, 0), 16),
    ]
}

#[test]
fn while_a_load_is_asked(rt: HostRuntime) -> Result<(), Fail> {
    let mut link = Queue::new(16)?;
    let mut board = owner_of_one(&mut link)?;
    board.load(20, &mut link)?;
    link.take(0);
    board.arrive(&write_request(1, 0, 2, 3, 4), &mut link)?;
    expect_no_access(&rt, &mut board, &mut link);
    expect_foolish(&rt, &mut board, &mut link);
    expect_refused(&rt, &mut board, &mut link, &under_a_load());
    expect_stage(&rt, &board, load_asked(20, None));
    expect_waiting(&rt, &board, &[writer(3, 4)]);
    // and then all goes on as if they had not come
    expect_arrival(
        &rt,
        board.arrive(&copy(1, 1, 2, 2, counting(100)), &mut link),
        loaded(2, 20, 104, 2),
    );
    expect_posts(&rt, &mut link, &[write_request(1, 2, 1, 3, 5)]);
    Ok(())
}

#[test]
fn while_an_invalidation_is_deferred(rt: HostRuntime) -> Result<(), Fail> {
    let mut link = Queue::new(16)?;
    let mut board = owner_of_one(&mut link)?;
    board.load(20, &mut link)?;
    link.take(0);
    board.arrive(&read_request(1, 0, 2, 3, 4), &mut link)?;
    board.arrive(&invalidate(1, 1, 2), &mut link)?;
    expect_no_access(&rt, &mut board, &mut link);
    expect_foolish(&rt, &mut board, &mut link);
    expect_refused(&rt, &mut board, &mut link, &under_a_load());
    let cases = [
        (invalidate(1, 1, 2), 16),
        (invalidate(1, 0, 2), 16),
        (invalidate(1, 3, 2), 16),
    ];
    expect_refused(&rt, &mut board, &mut link, &cases);
    expect_stage(&rt, &board, load_asked(20, Some(1)));
    expect_waiting(&rt, &board, &[reader(3, 4)]);
    expect_arrival(
        &rt,
        board.arrive(&copy(1, 0, 2, 2, counting(100)), &mut link),
        loaded(2, 20, 104, 2),
    );
    let posts = [acknowledgement(1, 2, 1), read_request(1, 2, 0, 3, 5)];
    expect_posts(&rt, &mut link, &posts);
    Ok(())
}

#[test]
fn while_a_store_is_asked(rt: HostRuntime) -> Result<(), Fail> {
    let mut link = Queue::new(16)?;
    let mut board = owner_of_one(&mut link)?;
    board.store(20, 7, &mut link)?;
    link.take(0);
    board.arrive(&read_request(1, 0, 2, 3, 4), &mut link)?;
    expect_no_access(&rt, &mut board, &mut link);
    expect_foolish(&rt, &mut board, &mut link);
    let cases = [
        (copy(1, 0, 2, 0, counting(900)), 16),
        (acknowledgement(1, 0, 2), 16),
        (acknowledgement(1, 3, 2), 16),
        (read_request(1, 3, 2, 3, 0), 16),
        (write_request(1, 1, 2, 3, 4), 16),
        (write_request(0, 3, 2, 3, 0), 16),
    ];
    expect_refused(&rt, &mut board, &mut link, &cases);
    expect_stage(&rt, &board, store_asked(20, 7));
    expect_waiting(&rt, &board, &[reader(3, 4)]);
    expect_arrival(
        &rt,
        board.arrive(&grant(1, 1, 2, 2, 0, [7; 16]), &mut link),
        stored(2, 20, 7, 2),
    );
    expect_posts(&rt, &mut link, &[copy(1, 2, 3, 4, [7; 16])]);
    Ok(())
}

#[test]
fn while_acknowledgements_are_awaited(rt: HostRuntime) -> Result<(), Fail> {
    let mut link = Queue::new(16)?;
    let mut board = owner_of_one(&mut link)?;
    board.store(20, 7, &mut link)?;
    link.take(0);
    // the boards 1 and 3 have copies; board 1 acknowledges, and board 0 asks
    board.arrive(&grant(1, 0, 2, 5, 0b1010, [7; 16]), &mut link)?;
    expect_posts(&rt, &mut link, &[invalidate(1, 2, 1), invalidate(1, 2, 3)]);
    board.arrive(&acknowledgement(1, 1, 2), &mut link)?;
    board.arrive(&write_request(1, 1, 2, 0, 4), &mut link)?;
    expect_no_access(&rt, &mut board, &mut link);
    expect_foolish(&rt, &mut board, &mut link);
    let cases = [
        (copy(1, 0, 2, 0, counting(900)), 16),
        (grant(1, 0, 2, 0, 0, counting(900)), 16),
        (grant(1, 3, 2, 0, 0b0001, counting(900)), 16),
        (invalidate(1, 3, 2), 16),
        (acknowledgement(1, 1, 2), 16),
        (acknowledgement(1, 0, 2), 16),
        (read_request(1, 3, 2, 0, 0), 16),
        (write_request(0, 0, 2, 0, 4), 16),
    ];
    expect_refused(&rt, &mut board, &mut link, &cases);
    expect_stage(&rt, &board, clearing(20, 7, 0b1000, 5));
    expect_entry(&rt, &board, 1, holds(Access::Read, 2, 0b1010, [7; 16]));
    expect_waiting(&rt, &board, &[writer(0, 4)]);
    expect_arrival(
        &rt,
        board.arrive(&acknowledgement(1, 3, 2), &mut link),
        stored(2, 20, 7, 5),
    );
    expect_posts(&rt, &mut link, &[grant(1, 2, 0, 4, 0, [7; 16])]);
    Ok(())
}

#[test]
fn without_room(rt: HostRuntime) -> Result<(), Fail> {
    let mut link = Queue::new(16)?;
    let mut board = owner_of_one(&mut link)?;
    board.store(20, 7, &mut link)?;
    // the request still waits on the link
    let cases = [
        (grant(1, 0, 2, 0, 0, counting(900)), 9),
        (grant(1, 0, 2, 0, 0b1010, counting(900)), 9),
        (invalidate(1, 3, 2), 9),
        (read_request(1, 3, 2, 3, 0), 9),
        (write_request(1, 3, 2, 3, 0), 9),
        (read_request(0, 3, 2, 3, 0), 9),
        (write_request(0, 3, 2, 3, 0), 9),
    ];
    expect_refused(&rt, &mut board, &mut link, &cases);
    expect_posts(&rt, &mut link, &[write_request(1, 2, 0, 2, 0)]);
    expect_stage(&rt, &board, store_asked(20, 7));
    Ok(())
}
