use super::lone_fixtures::{
    clearing, copy, counting, entry, expect_arrival, expect_entry, expect_posts, expect_stage,
    expect_waiting, grant, holds, load_asked, moved, read_request, reader, store_asked,
    write_request, writer,
};
use board::entry::Access;
use lone::lone_board::LoneBoard;
use std::process::Abort;
use std::test::Fail;
use wire::fault::Fault;
use wire::link::Link;
use wire::message::{Kind, Message};
use wire::queue::Queue;

/// Board 0 of 4, which owns page 1 and shared it with the boards 1 and 2; word 4 is 9.
fn sharing<L: Link>(link: &mut L) -> Result<LoneBoard, Fault> {
    let mut board = LoneBoard::new(0, 4, 2)?;
    board.store(20, 9, link)?;
    board.arrive(&read_request(1, 2, 0, 2, 0), link)?;
    link.take(0);
    board.arrive(&read_request(1, 1, 0, 1, 0), link)?;
    link.take(0);
    Ok(board)
}

/// Words of a page in which word 4 alone is not zero.
fn fourth(word: u32) -> [u32; 16] {
    let mut words = [0; 16];
    words[4] = word;
    words
}

#[test]
fn read_requests_at_the_owner(rt: HostRuntime) -> Result<(), Fail> {
    let mut link = Queue::new(16)?;
    let mut board = LoneBoard::new(0, 4, 2)?;
    board.store(20, 9, &mut link)?;
    // asker, from, hops, copy set afterwards: the third asks once more
    let cases: [(u8, u8, u8, u16); 4] = [
        (2, 3, 2, 0b0100),
        (3, 3, 0, 0b1100),
        (2, 1, 14, 0b1100),
        (1, 2, 1, 0b1110),
    ];
    for (asker, from, hops, copies) in cases {
        expect_arrival(
            &rt,
            board.arrive(&read_request(1, from, 0, asker, hops), &mut link),
            moved(0, Kind::ReadRequest, hops),
        );
        expect_entry(&rt, &board, 1, holds(Access::Read, 0, copies, fourth(9)));
        expect_posts(&rt, &mut link, &[copy(1, 0, asker, hops, fourth(9))]);
    }
    expect_entry(&rt, &board, 0, holds(Access::Write, 0, 0, [0; 16]));
    Ok(())
}

#[test]
fn write_request_at_the_owner(rt: HostRuntime) -> Result<(), Fail> {
    let mut link = Queue::new(16)?;
    // no copies are out
    let mut alone = LoneBoard::new(0, 4, 2)?;
    alone.store(20, 9, &mut link)?;
    expect_arrival(
        &rt,
        alone.arrive(&write_request(1, 1, 0, 3, 5), &mut link),
        moved(0, Kind::WriteRequest, 5),
    );
    expect_entry(&rt, &alone, 1, holds(Access::None, 3, 0, fourth(9)));
    expect_entry(&rt, &alone, 0, holds(Access::Write, 0, 0, [0; 16]));
    expect_posts(&rt, &mut link, &[grant(1, 0, 3, 5, 0, fourth(9))]);
    // the asker has a copy, and is not in the copy set that it gets
    let mut board = sharing(&mut link)?;
    board.arrive(&write_request(1, 3, 0, 2, 14), &mut link)?;
    expect_entry(&rt, &board, 1, holds(Access::None, 2, 0, fourth(9)));
    expect_posts(&rt, &mut link, &[grant(1, 0, 2, 14, 0b0010, fourth(9))]);
    // the asker has none
    let mut other = sharing(&mut link)?;
    other.arrive(&write_request(1, 3, 0, 3, 0), &mut link)?;
    expect_entry(&rt, &other, 1, holds(Access::None, 3, 0, fourth(9)));
    expect_posts(&rt, &mut link, &[grant(1, 0, 3, 0, 0b0110, fourth(9))]);
    Ok(())
}

#[test]
fn requests_after_a_grant(rt: HostRuntime) -> Result<(), Fail> {
    let mut link = Queue::new(16)?;
    let mut board = sharing(&mut link)?;
    board.arrive(&write_request(1, 3, 0, 3, 0), &mut link)?;
    link.take(0);
    // board 3 owns the page from now on
    board.arrive(&read_request(1, 2, 0, 2, 0), &mut link)?;
    expect_posts(&rt, &mut link, &[read_request(1, 0, 3, 2, 1)]);
    board.arrive(&write_request(1, 1, 0, 1, 6), &mut link)?;
    expect_posts(&rt, &mut link, &[write_request(1, 0, 2, 1, 7)]);
    expect_entry(&rt, &board, 1, holds(Access::None, 1, 0, fourth(9)));
    Ok(())
}

#[test]
fn requests_passed_on(rt: HostRuntime) -> Result<(), Fail> {
    let mut link = Queue::new(16)?;
    let mut board = LoneBoard::new(2, 4, 2)?;
    // is it for a store, from, asker, hops, to, hops then: the one goes to the asker of the one before
    let cases: [(bool, u8, u8, u8, u8, u8); 7] = [
        (false, 3, 3, 0, 0, 1),
        (true, 1, 1, 1, 3, 2),
        (true, 3, 0, 12, 1, 13),
        (false, 0, 3, 13, 0, 14),
        (false, 0, 1, 14, 3, 14),
        (true, 3, 3, 14, 1, 14),
        (true, 3, 3, 0, 3, 1),
    ];
    for (store, from, asker, hops, to, then) in cases {
        let kind = if store {
            Kind::WriteRequest
        } else {
            Kind::ReadRequest
        };
        let request = super::bare(kind, 1, from, 2, asker, hops);
        expect_arrival(&rt, board.arrive(&request, &mut link), moved(2, kind, hops));
        expect_entry(&rt, &board, 1, holds(Access::None, asker, 0, [0; 16]));
        expect_posts(&rt, &mut link, &[super::bare(kind, 1, 2, to, asker, then)]);
    }
    expect_entry(&rt, &board, 0, holds(Access::None, 0, 0, [0; 16]));
    Ok(())
}

#[test]
fn passed_on_with_a_copy(rt: HostRuntime) -> Result<(), Fail> {
    let mut link = Queue::new(16)?;
    let mut board = LoneBoard::new(2, 4, 2)?;
    board.load(20, &mut link)?;
    link.take(0);
    board.arrive(&copy(1, 3, 2, 0, counting(100)), &mut link)?;
    // only the hint changes: the copy stays readable
    board.arrive(&write_request(1, 0, 2, 1, 0), &mut link)?;
    expect_entry(&rt, &board, 1, holds(Access::Read, 1, 0, counting(100)));
    expect_posts(&rt, &mut link, &[write_request(1, 2, 3, 1, 1)]);
    Ok(())
}

/// Requests for page 1 wait, one behind the other, while one for page 0 is served.
fn expect_to_wait<L: Link>(
    rt: &impl Abort,
    board: &mut LoneBoard,
    link: &mut L,
    served: Message,
) -> Result<(), Fail> {
    let me = board.number();
    let stage = board.stage();
    let before = entry(board, 1);
    expect_arrival(
        rt,
        board.arrive(&write_request(1, 1, me, 3, 4), link),
        moved(me, Kind::WriteRequest, 4),
    );
    expect_posts(rt, link, &[]);
    expect_waiting(rt, board, &[writer(3, 4)]);
    expect_arrival(
        rt,
        board.arrive(&read_request(0, 3, me, 1, 0), link),
        moved(me, Kind::ReadRequest, 0),
    );
    expect_posts(rt, link, &[served]);
    expect_waiting(rt, board, &[writer(3, 4)]);
    board.arrive(&read_request(1, 3, me, 1, 14), link)?;
    expect_posts(rt, link, &[]);
    expect_waiting(rt, board, &[writer(3, 4), reader(1, 14)]);
    expect_stage(rt, board, stage);
    expect_entry(rt, board, 1, before);
    Ok(())
}

#[test]
fn waiting_for_a_load(rt: HostRuntime) -> Result<(), Fail> {
    let mut link = Queue::new(16)?;
    let mut board = LoneBoard::new(2, 4, 2)?;
    board.load(20, &mut link)?;
    link.take(0);
    expect_to_wait(&rt, &mut board, &mut link, read_request(0, 2, 0, 1, 1))?;
    expect_stage(&rt, &board, load_asked(20, None));
    expect_entry(&rt, &board, 0, holds(Access::None, 1, 0, [0; 16]));
    Ok(())
}

#[test]
fn waiting_for_a_store(rt: HostRuntime) -> Result<(), Fail> {
    let mut link = Queue::new(16)?;
    let mut board = LoneBoard::new(2, 4, 2)?;
    board.store(20, 7, &mut link)?;
    link.take(0);
    expect_to_wait(&rt, &mut board, &mut link, read_request(0, 2, 0, 1, 1))?;
    expect_stage(&rt, &board, store_asked(20, 7));
    expect_entry(&rt, &board, 0, holds(Access::None, 1, 0, [0; 16]));
    Ok(())
}

#[test]
fn waiting_for_acknowledgements(rt: HostRuntime) -> Result<(), Fail> {
    let mut link = Queue::new(16)?;
    let mut board = sharing(&mut link)?;
    board.store(20, 7, &mut link)?;
    link.take(0);
    link.take(0);
    expect_to_wait(&rt, &mut board, &mut link, copy(0, 0, 1, 0, [0; 16]))?;
    expect_stage(&rt, &board, clearing(20, 7, 0b0110, 0));
    expect_entry(&rt, &board, 0, holds(Access::Read, 0, 0b0010, [0; 16]));
    Ok(())
}
