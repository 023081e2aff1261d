use super::lone_fixtures::{
    acknowledgement, clearing, counting, expect_arrival, expect_entry, expect_posts, expect_stage,
    grant, holds, invalidate, load_asked, moved, store_asked, with_copy,
};
use board::entry::Access;
use board::stage::Stage;
use lone::lone_board::LoneBoard;
use std::test::Fail;
use wire::link::Link;
use wire::message::Kind;
use wire::queue::Queue;

#[test]
fn of_a_copy(rt: HostRuntime) -> Result<(), Fail> {
    let mut link = Queue::new(16)?;
    let mut board = with_copy(&mut link)?;
    expect_arrival(
        &rt,
        board.arrive(&invalidate(1, 0, 2), &mut link),
        moved(2, Kind::Invalidate, 0),
    );
    // the hint stays at board 3
    expect_entry(&rt, &board, 1, holds(Access::None, 3, 0, counting(100)));
    expect_posts(&rt, &mut link, &[acknowledgement(1, 2, 0)]);
    // and once more, where nothing is held
    expect_arrival(
        &rt,
        board.arrive(&invalidate(1, 1, 2), &mut link),
        moved(2, Kind::Invalidate, 0),
    );
    expect_entry(&rt, &board, 1, holds(Access::None, 3, 0, counting(100)));
    expect_posts(&rt, &mut link, &[acknowledgement(1, 2, 1)]);
    Ok(())
}

#[test]
fn of_nothing(rt: HostRuntime) -> Result<(), Fail> {
    let mut link = Queue::new(16)?;
    let mut board = LoneBoard::new(2, 4, 2)?;
    expect_arrival(
        &rt,
        board.arrive(&invalidate(1, 3, 2), &mut link),
        moved(2, Kind::Invalidate, 0),
    );
    expect_entry(&rt, &board, 1, holds(Access::None, 0, 0, [0; 16]));
    expect_stage(&rt, &board, Stage::Idle);
    expect_posts(&rt, &mut link, &[acknowledgement(1, 2, 3)]);
    Ok(())
}

#[test]
fn under_an_open_store(rt: HostRuntime) -> Result<(), Fail> {
    let mut link = Queue::new(16)?;
    let mut board = with_copy(&mut link)?;
    board.store(20, 7, &mut link)?;
    link.take(0);
    // done at once: this store's request may wait at the sender until it is acknowledged
    expect_arrival(
        &rt,
        board.arrive(&invalidate(1, 0, 2), &mut link),
        moved(2, Kind::Invalidate, 0),
    );
    expect_entry(&rt, &board, 1, holds(Access::None, 3, 0, counting(100)));
    expect_stage(&rt, &board, store_asked(20, 7));
    expect_posts(&rt, &mut link, &[acknowledgement(1, 2, 0)]);
    Ok(())
}

#[test]
fn under_an_open_load(rt: HostRuntime) -> Result<(), Fail> {
    let mut link = Queue::new(16)?;
    let mut board = LoneBoard::new(2, 4, 2)?;
    board.load(20, &mut link)?;
    link.take(0);
    expect_arrival(
        &rt,
        board.arrive(&invalidate(1, 3, 2), &mut link),
        moved(2, Kind::Invalidate, 0),
    );
    expect_entry(&rt, &board, 1, holds(Access::None, 0, 0, [0; 16]));
    expect_stage(&rt, &board, load_asked(20, Some(3)));
    expect_posts(&rt, &mut link, &[]);
    Ok(())
}

#[test]
fn of_another_page(rt: HostRuntime) -> Result<(), Fail> {
    let mut link = Queue::new(16)?;
    let mut board = with_copy(&mut link)?;
    // under a load of page 0
    board.load(4, &mut link)?;
    link.take(0);
    board.arrive(&invalidate(1, 1, 2), &mut link)?;
    expect_entry(&rt, &board, 1, holds(Access::None, 3, 0, counting(100)));
    expect_stage(&rt, &board, load_asked(4, None));
    expect_posts(&rt, &mut link, &[acknowledgement(1, 2, 1)]);
    // and under a load with a deferral
    board.arrive(&invalidate(0, 0, 2), &mut link)?;
    expect_posts(&rt, &mut link, &[]);
    board.arrive(&invalidate(1, 3, 2), &mut link)?;
    expect_stage(&rt, &board, load_asked(4, Some(0)));
    expect_entry(&rt, &board, 1, holds(Access::None, 3, 0, counting(100)));
    expect_posts(&rt, &mut link, &[acknowledgement(1, 2, 3)]);
    Ok(())
}

#[test]
fn under_a_clearing_store(rt: HostRuntime) -> Result<(), Fail> {
    let mut link = Queue::new(16)?;
    let mut board = with_copy(&mut link)?;
    // a store in page 0, of which board 3 has a copy
    board.store(4, 7, &mut link)?;
    link.take(0);
    board.arrive(&grant(0, 0, 2, 1, 0b1000, counting(40)), &mut link)?;
    link.take(0);
    expect_arrival(
        &rt,
        board.arrive(&invalidate(1, 3, 2), &mut link),
        moved(2, Kind::Invalidate, 0),
    );
    expect_stage(&rt, &board, clearing(4, 7, 0b1000, 1));
    expect_entry(&rt, &board, 0, holds(Access::Read, 2, 0b1000, counting(40)));
    expect_entry(&rt, &board, 1, holds(Access::None, 3, 0, counting(100)));
    expect_posts(&rt, &mut link, &[acknowledgement(1, 2, 3)]);
    Ok(())
}
