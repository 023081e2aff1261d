use super::lone_fixtures::{
    acknowledgement, copy, counting, expect_answer, expect_arrival, expect_number, expect_posts,
    grant, invalidate, loaded, read_request, stored, storing,
};
use board::answer::AccessAnswer;
use lone::lone_board::LoneBoard;
use std::process::Abort;
use std::test::Fail;
use wire::cap::Cap;
use wire::link::Link;
use wire::message::Message;
use wire::pool::Pool;
use wire::queue::Queue;

/// A load, and then an invalidate, over any link with sixteen places free.
fn expect_load<L: Link>(rt: &impl Abort, link: &mut L) -> Result<(), Fail> {
    let mut board = LoneBoard::new(2, 4, 2)?;
    expect_answer(rt, board.load(20, link), AccessAnswer::Opened);
    expect_posts(rt, link, &[read_request(1, 2, 0, 2, 0)]);
    expect_arrival(
        rt,
        board.arrive(&copy(1, 3, 2, 1, counting(100)), link),
        loaded(2, 20, 104, 1),
    );
    expect_posts(rt, link, &[]);
    board.arrive(&invalidate(1, 0, 2), link)?;
    expect_posts(rt, link, &[acknowledgement(1, 2, 0)]);
    Ok(())
}

#[test]
fn over_each_link(rt: HostRuntime) -> Result<(), Fail> {
    expect_load(&rt, &mut Queue::new(16)?)?;
    expect_load(&rt, &mut Queue::new(288)?)?;
    expect_load(&rt, &mut Pool::new(16)?)?;
    expect_load(&rt, &mut Cap::new(Queue::new(288)?, 16)?)?;
    expect_load(&rt, &mut Cap::new(Pool::new(16)?, 288)?)?;
    expect_load(&rt, &mut Cap::new(Cap::new(Pool::new(20)?, 18)?, 17)?)
}

#[test]
fn clearing_over_a_pool(rt: HostRuntime) -> Result<(), Fail> {
    let mut link = Pool::new(17)?;
    let mut board = storing(16, &mut link)?;
    // the boards 1, 9 and 15 have copies: place 4 mod 3 is 9, then place 3 mod 2 is 15, then 1
    board.arrive(&grant(1, 0, 2, 3, 0x8202, [7; 16]), &mut link)?;
    assert_eq!(rt; link.take(4), Some(invalidate(1, 2, 9)));
    expect_number(&rt, board.arrive(&acknowledgement(1, 9, 2), &mut link), 9);
    assert_eq!(rt; link.take(3), Some(invalidate(1, 2, 15)));
    // one waits, and sixteen places are free
    board.arrive(&acknowledgement(1, 9, 2), &mut link)?;
    assert_eq!(rt; link.take(2), Some(invalidate(1, 2, 1)));
    board.arrive(&acknowledgement(1, 1, 2), &mut link)?;
    expect_arrival(
        &rt,
        board.arrive(&acknowledgement(1, 15, 2), &mut link),
        stored(2, 20, 7, 3),
    );
    expect_posts(&rt, &mut link, &[]);
    Ok(())
}

#[test]
fn room_under_a_cap(rt: HostRuntime) -> Result<(), Fail> {
    let mut low = Cap::new(Pool::new(288)?, 15)?;
    let mut board = LoneBoard::new(0, 4, 2)?;
    expect_number(&rt, board.load(20, &mut low), 9);
    let mut link = Cap::new(Pool::new(288)?, 16)?;
    expect_number(&rt, board.load(20, &mut link), 0);
    link.post(Message::BLANK)?;
    expect_number(&rt, board.load(20, &mut link), 9);
    expect_number(&rt, board.store(20, 7, &mut link), 9);
    expect_number(
        &rt,
        board.arrive(&read_request(1, 3, 0, 3, 0), &mut link),
        9,
    );
    assert_eq!(rt; link.count(), 1);
    link.take(0);
    expect_number(
        &rt,
        board.arrive(&read_request(1, 3, 0, 3, 0), &mut link),
        0,
    );
    expect_posts(&rt, &mut link, &[copy(1, 0, 3, 0, [0; 16])]);
    Ok(())
}
