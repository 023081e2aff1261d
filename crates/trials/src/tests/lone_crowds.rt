use super::lone_fixtures::{
    acknowledgement, copy, counting, expect_arrival, expect_entry, expect_number, expect_posts,
    expect_stage, expect_waiting, grant, holds, invalidate, loaded, read_request, stored,
    write_request,
};
use board::entry::Access;
use board::outbox::Outbox;
use board::stage::Stage;
use lone::lone_board::LoneBoard;
use std::test::Fail;
use wire::fault::Fault;
use wire::link::Link;
use wire::message::Message;
use wire::queue::Queue;

/// One request of each board but 5, in the order in which they arrive at board 5. Asked 0 to 14 times on the way.
fn requests() -> [Message; 15] {
    [
        read_request(0, 6, 5, 6, 0),
        write_request(0, 0, 5, 3, 14),
        write_request(0, 6, 5, 15, 1),
        read_request(0, 6, 5, 0, 2),
        read_request(0, 4, 5, 4, 3),
        write_request(0, 4, 5, 14, 4),
        read_request(0, 1, 5, 1, 5),
        read_request(0, 1, 5, 13, 6),
        write_request(0, 1, 5, 2, 7),
        write_request(0, 2, 5, 12, 8),
        write_request(0, 2, 5, 11, 9),
        read_request(0, 8, 5, 8, 10),
        read_request(0, 8, 5, 10, 11),
        write_request(0, 8, 5, 9, 12),
        read_request(0, 8, 5, 7, 13),
    ]
}

/// What a board posts after a copy from board 12 when it owes an acknowledgement to board 9: the requests are passed on from the
/// hint 12, each to the asker of the one before.
fn posts() -> [Message; 16] {
    [
        acknowledgement(0, 5, 9),
        read_request(0, 5, 12, 6, 1),
        write_request(0, 5, 6, 3, 14),
        write_request(0, 5, 3, 15, 2),
        read_request(0, 5, 15, 0, 3),
        read_request(0, 5, 0, 4, 4),
        write_request(0, 5, 4, 14, 5),
        read_request(0, 5, 14, 1, 6),
        read_request(0, 5, 1, 13, 7),
        write_request(0, 5, 13, 2, 8),
        write_request(0, 5, 2, 12, 9),
        write_request(0, 5, 12, 11, 10),
        read_request(0, 5, 11, 8, 11),
        read_request(0, 5, 8, 10, 12),
        write_request(0, 5, 10, 9, 13),
        read_request(0, 5, 9, 7, 14),
    ]
}

/// The requests arrive at a board at which an access is open.
fn crowd<L: Link>(board: &mut LoneBoard, link: &mut L) -> Result<(), Fault> {
    for request in requests() {
        board.arrive(&request, link)?;
    }
    Ok(())
}

/// Board 5 of 16, whose load at address 7 has asked. All others' requests wait, and an invalidation by board 9 is deferred.
fn crowded_load<L: Link>(link: &mut L) -> Result<LoneBoard, Fault> {
    let mut board = LoneBoard::new(5, 16, 1)?;
    board.load(7, link)?;
    link.take(0);
    crowd(&mut board, link)?;
    board.arrive(&invalidate(0, 9, 5), link)?;
    Ok(board)
}

#[test]
fn sixteen_posts(rt: HostRuntime) -> Result<(), Fail> {
    let mut link = Queue::new(16)?;
    let mut board = crowded_load(&mut link)?;
    assert_eq!(rt; board.waiting().len(), 15);
    assert_eq!(rt; link.count(), 0);
    expect_arrival(
        &rt,
        board.arrive(&copy(0, 12, 5, 6, counting(100)), &mut link),
        loaded(5, 7, 107, 6),
    );
    assert_eq!(rt; link.count(), 16);
    expect_posts(&rt, &mut link, &posts());
    expect_entry(&rt, &board, 0, holds(Access::None, 7, 0, counting(100)));
    expect_stage(&rt, &board, Stage::Idle);
    expect_waiting(&rt, &board, &[]);
    Ok(())
}

#[test]
fn fifteen_posts(rt: HostRuntime) -> Result<(), Fail> {
    let mut link = Queue::new(16)?;
    let mut board = LoneBoard::new(5, 16, 1)?;
    board.load(7, &mut link)?;
    link.take(0);
    crowd(&mut board, &mut link)?;
    board.arrive(&copy(0, 12, 5, 6, counting(100)), &mut link)?;
    // no acknowledgement, where no invalidation was deferred
    expect_entry(&rt, &board, 0, holds(Access::Read, 7, 0, counting(100)));
    expect_posts(&rt, &mut link, &posts()[1..]);
    Ok(())
}

#[test]
fn no_room_for_a_sixteenth(rt: HostRuntime) -> Result<(), Fail> {
    let mut link = Queue::new(16)?;
    let mut board = crowded_load(&mut link)?;
    for request in requests() {
        expect_number(&rt, board.arrive(&request, &mut link), 16);
    }
    expect_number(
        &rt,
        board.arrive(&read_request(0, 6, 5, 5, 0), &mut link),
        16,
    );
    expect_number(&rt, board.arrive(&invalidate(0, 9, 5), &mut link), 16);
    assert_eq!(rt; board.waiting().len(), 15);
    assert_eq!(rt; link.count(), 0);
    // one message on the link leaves too little room for the copy
    link.post(Message::BLANK)?;
    let copy = copy(0, 12, 5, 6, counting(100));
    expect_number(&rt, board.arrive(&copy, &mut link), 9);
    link.take(0);
    expect_number(&rt, board.arrive(&copy, &mut link), 0);
    Ok(())
}

#[test]
fn served_by_a_new_owner(rt: HostRuntime) -> Result<(), Fail> {
    let mut link = Queue::new(16)?;
    let mut board = LoneBoard::new(5, 16, 1)?;
    board.store(7, 1, &mut link)?;
    link.take(0);
    crowd(&mut board, &mut link)?;
    expect_arrival(
        &rt,
        board.arrive(&grant(0, 12, 5, 14, 0, [1; 16]), &mut link),
        stored(5, 7, 1, 14),
    );
    assert_eq!(rt; link.count(), 15);
    // board 6 gets a copy, board 3 the page; the others go on from there
    assert_eq!(rt; link.take(0), Some(copy(0, 5, 6, 0, [1; 16])));
    assert_eq!(rt;
        link.take(0),
        Some(grant(0, 5, 3, 14, 0b0100_0000, [1; 16]))
    );
    expect_posts(&rt, &mut link, &posts()[3..]);
    expect_entry(&rt, &board, 0, holds(Access::None, 7, 0, [1; 16]));
    expect_waiting(&rt, &board, &[]);
    Ok(())
}

#[test]
fn step_by_step(rt: HostRuntime) -> Result<(), Fail> {
    let mut link = Queue::new(16)?;
    let mut low = Queue::new(15)?;
    let mut board = crowded_load(&mut link)?;
    let copied = copy(0, 12, 5, 6, counting(100));
    let mut out = Outbox::new();
    let answer = board.arrive_step(&copied, &mut out);
    assert!(rt; answer == Ok(loaded(5, 7, 107, 6)));
    assert!(rt; out.messages() == posts().as_slice());
    // while they stand in the outbox, every step is refused with 9
    expect_number(&rt, board.load_step(7, &mut out), 9);
    expect_number(&rt, board.store_step(7, 2, &mut out), 9);
    expect_number(&rt, board.arrive_step(&invalidate(0, 9, 5), &mut out), 9);
    expect_number(&rt, board.arrive_step(&copied, &mut out), 16);
    expect_number(&rt, board.load_step(16, &mut out), 2);
    // and they are all sent or none
    expect_number(&rt, out.send(&mut low), 9);
    assert_eq!(rt; low.count(), 0);
    assert!(rt; out.messages() == posts().as_slice());
    expect_number(&rt, out.send(&mut link), 0);
    assert!(rt; out.messages().is_empty());
    expect_posts(&rt, &mut link, &posts());
    Ok(())
}
