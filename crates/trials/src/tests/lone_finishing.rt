use super::lone_fixtures::{
    acknowledgement, clearing, copy, counting, expect_answer, expect_arrival, expect_entry,
    expect_posts, expect_stage, expect_waiting, grant, holds, invalidate, loaded, moved,
    read_request, stored, storing, write_request,
};
use board::answer::AccessAnswer;
use board::entry::Access;
use board::stage::Stage;
use lone::lone_board::LoneBoard;
use std::process::Abort;
use std::test::Fail;
use wire::fault::Fault;
use wire::link::Link;
use wire::message::Kind;
use wire::queue::Queue;

/// The words that count up from `first`, with another at place 4.
fn with_fourth(first: u32, word: u32) -> [u32; 16] {
    let mut words = counting(first);
    words[4] = word;
    words
}

/// Three requests for page 1 arrive at board 2: to read for board 3, to write for board 0, to read for board 1.
fn line_up<L: Link>(board: &mut LoneBoard, link: &mut L) -> Result<(), Fault> {
    board.arrive(&read_request(1, 3, 2, 3, 0), link)?;
    board.arrive(&write_request(1, 4, 2, 0, 2), link)?;
    board.arrive(&read_request(1, 1, 2, 1, 13), link)?;
    Ok(())
}

/// No access is open, and no request waits.
fn expect_idle(rt: &impl Abort, board: &LoneBoard) {
    expect_stage(rt, board, Stage::Idle);
    expect_waiting(rt, board, &[]);
}

#[test]
fn load_by_a_copy(rt: HostRuntime) -> Result<(), Fail> {
    let mut link = Queue::new(16)?;
    let mut board = LoneBoard::new(2, 5, 2)?;
    board.load(20, &mut link)?;
    link.take(0);
    expect_arrival(
        &rt,
        board.arrive(&copy(1, 3, 2, 5, counting(100)), &mut link),
        loaded(2, 20, 104, 5),
    );
    expect_entry(&rt, &board, 1, holds(Access::Read, 3, 0, counting(100)));
    expect_entry(&rt, &board, 0, holds(Access::None, 0, 0, [0; 16]));
    expect_idle(&rt, &board);
    expect_posts(&rt, &mut link, &[]);
    Ok(())
}

#[test]
fn load_then_requests(rt: HostRuntime) -> Result<(), Fail> {
    let mut link = Queue::new(16)?;
    let mut board = LoneBoard::new(2, 5, 2)?;
    board.load(31, &mut link)?;
    link.take(0);
    line_up(&mut board, &mut link)?;
    expect_arrival(
        &rt,
        board.arrive(&copy(1, 4, 2, 0, counting(100)), &mut link),
        loaded(2, 31, 115, 0),
    );
    // all go on from the sender of the copy, each to the asker of the one before; the copy stays
    let posts = [
        read_request(1, 2, 4, 3, 1),
        write_request(1, 2, 3, 0, 3),
        read_request(1, 2, 0, 1, 14),
    ];
    expect_posts(&rt, &mut link, &posts);
    expect_entry(&rt, &board, 1, holds(Access::Read, 1, 0, counting(100)));
    expect_idle(&rt, &board);
    Ok(())
}

#[test]
fn load_then_deferral_then_requests(rt: HostRuntime) -> Result<(), Fail> {
    let mut link = Queue::new(16)?;
    let mut board = LoneBoard::new(2, 5, 2)?;
    board.load(20, &mut link)?;
    link.take(0);
    line_up(&mut board, &mut link)?;
    board.arrive(&invalidate(1, 1, 2), &mut link)?;
    expect_posts(&rt, &mut link, &[]);
    // the word is read although the copy is then given up
    expect_arrival(
        &rt,
        board.arrive(&copy(1, 4, 2, 9, counting(100)), &mut link),
        loaded(2, 20, 104, 9),
    );
    let posts = [
        acknowledgement(1, 2, 1),
        read_request(1, 2, 4, 3, 1),
        write_request(1, 2, 3, 0, 3),
        read_request(1, 2, 0, 1, 14),
    ];
    expect_posts(&rt, &mut link, &posts);
    expect_entry(&rt, &board, 1, holds(Access::None, 1, 0, counting(100)));
    expect_idle(&rt, &board);
    Ok(())
}

#[test]
fn store_by_a_grant(rt: HostRuntime) -> Result<(), Fail> {
    let mut link = Queue::new(16)?;
    let mut board = storing(16, &mut link)?;
    expect_arrival(
        &rt,
        board.arrive(&grant(1, 0, 2, 3, 0, counting(100)), &mut link),
        stored(2, 20, 7, 3),
    );
    expect_entry(
        &rt,
        &board,
        1,
        holds(Access::Write, 2, 0, with_fourth(100, 7)),
    );
    expect_entry(&rt, &board, 0, holds(Access::None, 0, 0, [0; 16]));
    expect_idle(&rt, &board);
    // the board owns the page: it stores within the call
    expect_answer(
        &rt,
        board.store(20, 8, &mut link),
        AccessAnswer::Answered { word: 8 },
    );
    expect_entry(
        &rt,
        &board,
        1,
        holds(Access::Write, 2, 0, with_fourth(100, 8)),
    );
    expect_posts(&rt, &mut link, &[]);
    Ok(())
}

#[test]
fn grant_with_copies(rt: HostRuntime) -> Result<(), Fail> {
    let mut link = Queue::new(16)?;
    let mut board = storing(16, &mut link)?;
    // boards 0, 9 and 15 have copies
    expect_arrival(
        &rt,
        board.arrive(&grant(1, 3, 2, 3, 0x8201, counting(100)), &mut link),
        moved(2, Kind::Grant, 3),
    );
    expect_stage(&rt, &board, clearing(20, 7, 0x8201, 3));
    expect_entry(
        &rt,
        &board,
        1,
        holds(Access::Read, 2, 0x8201, counting(100)),
    );
    let posts = [
        invalidate(1, 2, 0),
        invalidate(1, 2, 9),
        invalidate(1, 2, 15),
    ];
    expect_posts(&rt, &mut link, &posts);
    Ok(())
}

/// Board 2 of 16, whose store of 7 at address 20 is clearing: the boards 1, 9 and 15 have copies, and are told.
fn clearing_three<L: Link>(link: &mut L) -> Result<LoneBoard, Fault> {
    let mut board = storing(16, link)?;
    board.arrive(&grant(1, 0, 2, 3, 0x8202, counting(100)), link)?;
    for _ in 0..3u8 {
        link.take(0);
    }
    Ok(board)
}

#[test]
fn one_acknowledgement_after_the_other(rt: HostRuntime) -> Result<(), Fail> {
    let mut link = Queue::new(16)?;
    let mut board = clearing_three(&mut link)?;
    // from, awaited afterwards: the copy set stays whole meanwhile
    for (from, awaited) in [(9, 0x8002), (1, 0x8000)] {
        expect_arrival(
            &rt,
            board.arrive(&acknowledgement(1, from, 2), &mut link),
            moved(2, Kind::Acknowledgement, 0),
        );
        expect_stage(&rt, &board, clearing(20, 7, awaited, 3));
        expect_entry(
            &rt,
            &board,
            1,
            holds(Access::Read, 2, 0x8202, counting(100)),
        );
        expect_posts(&rt, &mut link, &[]);
    }
    expect_arrival(
        &rt,
        board.arrive(&acknowledgement(1, 15, 2), &mut link),
        stored(2, 20, 7, 3),
    );
    expect_entry(
        &rt,
        &board,
        1,
        holds(Access::Write, 2, 0, with_fourth(100, 7)),
    );
    expect_idle(&rt, &board);
    expect_posts(&rt, &mut link, &[]);
    Ok(())
}

/// The new owner shares the page with board 3, then grants it to board 0, and passes the last request on.
fn expect_line<L: Link>(rt: &impl Abort, board: &LoneBoard, link: &mut L) {
    let words = with_fourth(100, 7);
    let posts = [
        copy(1, 2, 3, 0, words),
        grant(1, 2, 0, 2, 0b1000, words),
        read_request(1, 2, 0, 1, 14),
    ];
    expect_posts(rt, link, &posts);
    expect_entry(rt, board, 1, holds(Access::None, 1, 0, words));
    expect_idle(rt, board);
}

#[test]
fn store_then_requests(rt: HostRuntime) -> Result<(), Fail> {
    let mut link = Queue::new(16)?;
    let mut board = storing(16, &mut link)?;
    line_up(&mut board, &mut link)?;
    expect_arrival(
        &rt,
        board.arrive(&grant(1, 0, 2, 14, 0, counting(100)), &mut link),
        stored(2, 20, 7, 14),
    );
    expect_line(&rt, &board, &mut link);
    Ok(())
}

#[test]
fn acknowledgement_then_requests(rt: HostRuntime) -> Result<(), Fail> {
    let mut link = Queue::new(16)?;
    let mut board = storing(16, &mut link)?;
    // board 3 had a copy and asks once more
    board.arrive(&grant(1, 0, 2, 1, 0b1000, counting(100)), &mut link)?;
    expect_posts(&rt, &mut link, &[invalidate(1, 2, 3)]);
    line_up(&mut board, &mut link)?;
    expect_arrival(
        &rt,
        board.arrive(&acknowledgement(1, 3, 2), &mut link),
        stored(2, 20, 7, 1),
    );
    expect_line(&rt, &board, &mut link);
    Ok(())
}

#[test]
fn own_store_of_an_owner(rt: HostRuntime) -> Result<(), Fail> {
    let mut link = Queue::new(16)?;
    let mut board = LoneBoard::new(0, 3, 2)?;
    // the copy goes out with hops 5, but the store asked nobody
    board.arrive(&read_request(1, 2, 0, 2, 5), &mut link)?;
    link.take(0);
    board.store(20, 7, &mut link)?;
    expect_posts(&rt, &mut link, &[invalidate(1, 0, 2)]);
    expect_arrival(
        &rt,
        board.arrive(&acknowledgement(1, 2, 0), &mut link),
        stored(0, 20, 7, 0),
    );
    let mut words = [0; 16];
    words[4] = 7;
    expect_entry(&rt, &board, 1, holds(Access::Write, 0, 0, words));
    expect_idle(&rt, &board);
    expect_posts(&rt, &mut link, &[]);
    Ok(())
}
