use super::lone_fixtures::{
    clearing, copy, counting, entry, expect_answer, expect_arrival, expect_entry, expect_posts,
    expect_stage, holds, invalidate, load_asked, loaded, read_request, store_asked, with_copy,
    write_request,
};
use board::answer::AccessAnswer;
use board::board::Board;
use board::entry::{Access, PageEntry};
use board::outbox::Outbox;
use board::stage::Stage;
use lone::lone_board::LoneBoard;
use std::test::Fail;
use wire::board_set::BoardSet;
use wire::link::Link;
use wire::queue::Queue;

fn answered(word: u32) -> AccessAnswer {
    AccessAnswer::Answered { word }
}

#[test]
fn as_they_start(rt: HostRuntime) -> Result<(), Fail> {
    let owner = LoneBoard::new(0, 4, 2)?;
    let other = LoneBoard::new(3, 4, 2)?;
    assert_eq!(rt; owner.number(), 0);
    assert_eq!(rt; other.number(), 3);
    expect_stage(&rt, &other, Stage::Idle);
    assert_eq!(rt; other.waiting().len(), 0);
    for page in 0..2 {
        expect_entry(&rt, &owner, page, holds(Access::Write, 0, 0, [0; 16]));
        expect_entry(&rt, &other, page, holds(Access::None, 0, 0, [0; 16]));
    }
    expect_entry(&rt, &owner, 2, None);
    assert_eq!(rt; entry(&other, u32::MAX), None);
    Ok(())
}

#[test]
fn access_write(rt: HostRuntime) -> Result<(), Fail> {
    let mut link = Queue::new(16)?;
    let mut board = LoneBoard::new(0, 4, 2)?;
    expect_answer(&rt, board.load(31, &mut link), answered(0));
    expect_answer(&rt, board.store(17, 5, &mut link), answered(5));
    expect_answer(
        &rt,
        board.store(31, 0xffff_ffff, &mut link),
        answered(0xffff_ffff),
    );
    expect_answer(&rt, board.store(17, 6, &mut link), answered(6));
    expect_answer(&rt, board.load(17, &mut link), answered(6));
    expect_answer(&rt, board.load(31, &mut link), answered(0xffff_ffff));
    expect_answer(&rt, board.load(1, &mut link), answered(0));
    let mut words = [0; 16];
    words[1] = 6;
    words[15] = 0xffff_ffff;
    expect_entry(&rt, &board, 1, holds(Access::Write, 0, 0, words));
    expect_entry(&rt, &board, 0, holds(Access::Write, 0, 0, [0; 16]));
    expect_stage(&rt, &board, Stage::Idle);
    expect_posts(&rt, &mut link, &[]);
    Ok(())
}

#[test]
fn load_with_access_read(rt: HostRuntime) -> Result<(), Fail> {
    let mut link = Queue::new(16)?;
    let mut board = with_copy(&mut link)?;
    for place in 0..16u32 {
        expect_answer(
            &rt,
            board.load(16 + place, &mut link),
            answered(100 + place),
        );
    }
    expect_entry(&rt, &board, 1, holds(Access::Read, 3, 0, counting(100)));
    expect_posts(&rt, &mut link, &[]);
    // an owner that shared its page
    let mut owner = LoneBoard::new(0, 4, 2)?;
    owner.store(17, 5, &mut link)?;
    owner.arrive(&read_request(1, 3, 0, 3, 0), &mut link)?;
    link.take(0);
    expect_answer(&rt, owner.load(17, &mut link), answered(5));
    expect_stage(&rt, &owner, Stage::Idle);
    expect_posts(&rt, &mut link, &[]);
    Ok(())
}

#[test]
fn load_that_opens(rt: HostRuntime) -> Result<(), Fail> {
    let mut link = Queue::new(16)?;
    let mut board = LoneBoard::new(2, 4, 2)?;
    expect_answer(&rt, board.load(20, &mut link), AccessAnswer::Opened);
    expect_stage(&rt, &board, load_asked(20, None));
    expect_entry(&rt, &board, 1, holds(Access::None, 0, 0, [0; 16]));
    expect_posts(&rt, &mut link, &[read_request(1, 2, 0, 2, 0)]);
    // the request goes to the hint: here board 3, whose request was passed on
    let mut other = LoneBoard::new(2, 4, 2)?;
    other.arrive(&write_request(0, 1, 2, 3, 0), &mut link)?;
    link.take(0);
    expect_answer(&rt, other.load(15, &mut link), AccessAnswer::Opened);
    expect_stage(&rt, &other, load_asked(15, None));
    expect_posts(&rt, &mut link, &[read_request(0, 2, 3, 2, 0)]);
    Ok(())
}

#[test]
fn load_after_an_invalidate(rt: HostRuntime) -> Result<(), Fail> {
    let mut link = Queue::new(16)?;
    let mut board = with_copy(&mut link)?;
    board.arrive(&invalidate(1, 0, 2), &mut link)?;
    link.take(0);
    expect_answer(&rt, board.load(20, &mut link), AccessAnswer::Opened);
    expect_posts(&rt, &mut link, &[read_request(1, 2, 3, 2, 0)]);
    expect_arrival(
        &rt,
        board.arrive(&copy(1, 1, 2, 1, counting(200)), &mut link),
        loaded(2, 20, 204, 1),
    );
    Ok(())
}

#[test]
fn store_that_asks(rt: HostRuntime) -> Result<(), Fail> {
    let mut link = Queue::new(16)?;
    // with access none
    let mut board = LoneBoard::new(2, 4, 2)?;
    expect_answer(&rt, board.store(20, 7, &mut link), AccessAnswer::Opened);
    expect_stage(&rt, &board, store_asked(20, 7));
    expect_entry(&rt, &board, 1, holds(Access::None, 0, 0, [0; 16]));
    expect_posts(&rt, &mut link, &[write_request(1, 2, 0, 2, 0)]);
    // with access read: the word is not put yet
    let mut reading = with_copy(&mut link)?;
    expect_answer(&rt, reading.store(20, 7, &mut link), AccessAnswer::Opened);
    expect_stage(&rt, &reading, store_asked(20, 7));
    expect_entry(&rt, &reading, 1, holds(Access::Read, 3, 0, counting(100)));
    expect_posts(&rt, &mut link, &[write_request(1, 2, 3, 2, 0)]);
    Ok(())
}

#[test]
fn store_with_copies_out(rt: HostRuntime) -> Result<(), Fail> {
    let mut link = Queue::new(16)?;
    let mut board = LoneBoard::new(0, 16, 1)?;
    for asker in [9, 2, 15, 4] {
        board.arrive(&read_request(0, asker, 0, asker, 3), &mut link)?;
        link.take(0);
    }
    expect_answer(&rt, board.store(3, 8, &mut link), AccessAnswer::Opened);
    // boards 2, 4, 9 and 15
    expect_stage(&rt, &board, clearing(3, 8, 0x8214, 0));
    expect_entry(&rt, &board, 0, holds(Access::Read, 0, 0x8214, [0; 16]));
    let posts = [
        invalidate(0, 0, 2),
        invalidate(0, 0, 4),
        invalidate(0, 0, 9),
        invalidate(0, 0, 15),
    ];
    expect_posts(&rt, &mut link, &posts);
    Ok(())
}

// No message leaves a lone board with access read and no copies out, so the board itself is asked.
#[test]
fn store_with_no_copies_out(rt: HostRuntime) -> Result<(), Fail> {
    let mut out = Outbox::new();
    let mut board = Board::start(2);
    let mut shared = PageEntry {
        access: Access::Read,
        hint: 2,
        copies: BoardSet::EMPTY,
        words: [3; 16],
    };
    assert_eq!(rt; board.store(20, 7, &mut shared, &mut out), answered(7));
    assert!(rt; out.messages().is_empty());
    assert_eq!(rt; board.stage(), Stage::Idle);
    let mut words = [3; 16];
    words[4] = 7;
    assert_eq!(rt; Some(shared), holds(Access::Write, 2, 0, words));
    Ok(())
}
