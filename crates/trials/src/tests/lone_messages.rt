use super::bare;
use super::lone_fixtures::{
    acknowledgement, copy, counting, expect_arrival, expect_number, expect_posts, grant,
    invalidate, moved, read_request, storing, write_request,
};
use lone::lone_board::LoneBoard;
use std::process::Abort;
use std::test::Fail;
use wire::board_set::BoardSet;
use wire::link::Link;
use wire::message::{Kind, Message};
use wire::queue::Queue;

/// The messages arrive at board 2 of 4, with 2 pages, whose store of 7 at address 20 has asked for page 1.
fn expect_numbers(rt: &impl Abort, cases: &[(Message, u16)]) -> Result<(), Fail> {
    for (message, number) in cases {
        let mut link = Queue::new(16)?;
        let mut board = LoneBoard::new(2, 4, 2)?;
        board.store(20, 7, &mut link)?;
        // first without room on the link: 9 is asked after all the others
        let full = if *number == 0 { 9 } else { *number };
        expect_number(rt, board.arrive(message, &mut link), full);
        link.take(0);
        expect_number(rt, board.arrive(message, &mut link), *number);
    }
    Ok(())
}

#[test]
fn parties(rt: HostRuntime) -> Result<(), Fail> {
    let cases = [
        (read_request(1, 3, 2, 3, 0), 0),
        (read_request(1, 16, 2, 3, 0), 12),
        (read_request(1, 3, 16, 3, 0), 12),
        (read_request(1, 3, 2, 16, 0), 12),
        (read_request(1, 2, 2, 3, 0), 12),
        (read_request(1, 255, 2, 3, 0), 12),
        // 12 before 13
        (write_request(16, 2, 2, 3, 15), 12),
        (write_request(1, 3, 2, 16, 15), 12),
    ];
    expect_numbers(&rt, &cases)
}

#[test]
fn pages_and_hops(rt: HostRuntime) -> Result<(), Fail> {
    let cases = [
        (write_request(1, 3, 2, 3, 14), 0),
        (write_request(1, 3, 2, 3, 15), 13),
        (write_request(16, 3, 2, 3, 0), 13),
        (write_request(257, 3, 2, 3, 0), 13),
        // 13 before 14
        (bare(Kind::Invalidate, 1, 3, 2, 0, 15), 13),
        (bare(Kind::Copy, 16, 3, 2, 0, 0), 13),
    ];
    expect_numbers(&rt, &cases)
}

/// A message with a word.
fn worded(message: Message) -> Message {
    Message {
        words: counting(0),
        ..message
    }
}

/// A message with the copy set of board 1 alone.
fn sharing(message: Message) -> Message {
    Message {
        copies: BoardSet::from_bits(0b0010),
        ..message
    }
}

#[test]
fn forms_of_kinds(rt: HostRuntime) -> Result<(), Fail> {
    let cases = [
        (worded(read_request(1, 3, 2, 3, 0)), 14),
        (sharing(read_request(1, 3, 2, 3, 0)), 14),
        (worded(write_request(1, 3, 2, 3, 0)), 14),
        (sharing(write_request(1, 3, 2, 3, 0)), 14),
        (bare(Kind::Copy, 1, 3, 2, 3, 0), 14),
        (sharing(copy(1, 3, 2, 0, [0; 16])), 14),
        (bare(Kind::Grant, 1, 3, 2, 3, 0), 14),
        (grant(1, 3, 2, 0, 0b0110, [0; 16]), 14),
        (worded(invalidate(1, 3, 2)), 14),
        (sharing(invalidate(1, 3, 2)), 14),
        (bare(Kind::Invalidate, 1, 3, 2, 2, 0), 14),
        (bare(Kind::Invalidate, 1, 3, 2, 3, 1), 14),
        (worded(acknowledgement(1, 3, 2)), 14),
        (sharing(acknowledgement(1, 3, 2)), 14),
        (bare(Kind::Acknowledgement, 1, 3, 2, 3, 0), 14),
        (bare(Kind::Acknowledgement, 1, 3, 2, 2, 1), 14),
        // 14 before 15: from and page are of no board and page of this kit
        (bare(Kind::Copy, 2, 4, 2, 4, 0), 14),
    ];
    expect_numbers(&rt, &cases)
}

#[test]
fn of_another_kit(rt: HostRuntime) -> Result<(), Fail> {
    let cases = [
        (grant(1, 3, 2, 0, 0b1011, [0; 16]), 0),
        // the receiver, from, the asker, a member of the copy set, and the page
        (grant(1, 3, 0, 0, 0, [0; 16]), 15),
        (grant(1, 4, 2, 0, 0, [0; 16]), 15),
        (read_request(1, 3, 2, 4, 0), 15),
        (grant(1, 3, 2, 0, 0x0010, [0; 16]), 15),
        (grant(1, 3, 2, 0, 0x8000, [0; 16]), 15),
        (grant(2, 3, 2, 0, 0, [0; 16]), 15),
        (invalidate(2, 3, 2), 15),
        (invalidate(15, 15, 2), 15),
        // 15 before 16: a copy is not expected
        (copy(1, 3, 1, 0, [0; 16]), 15),
        (copy(2, 3, 2, 0, [0; 16]), 15),
    ];
    expect_numbers(&rt, &cases)
}

#[test]
fn unexpected(rt: HostRuntime) -> Result<(), Fail> {
    let cases = [
        (copy(1, 3, 2, 0, [0; 16]), 16),
        (grant(0, 3, 2, 0, 0, [0; 16]), 16),
        (acknowledgement(1, 3, 2), 16),
        (read_request(1, 3, 2, 2, 0), 16),
        (write_request(0, 3, 2, 2, 0), 16),
        (invalidate(1, 3, 2), 0),
        (invalidate(0, 3, 2), 0),
        (grant(1, 3, 2, 0, 0, [0; 16]), 0),
    ];
    expect_numbers(&rt, &cases)
}

#[test]
fn first_question_answers(rt: HostRuntime) -> Result<(), Fail> {
    let mut link = Queue::new(16)?;
    let mut board = storing(4, &mut link)?;
    link.post(Message::BLANK)?;
    // from, to, page, hops, copy set, refusal: every line mends one thing that is wrong in the line before
    let cases: [(u8, u8, u32, u8, u16, u16); 10] = [
        (16, 16, 16, 15, 0xffff, 12),
        (3, 16, 16, 15, 0xffff, 12),
        (3, 3, 16, 15, 0xffff, 12),
        (3, 1, 16, 15, 0xffff, 13),
        (3, 1, 15, 15, 0xffff, 13),
        (3, 1, 15, 14, 0xffff, 14),
        (3, 1, 15, 14, 0xfff9, 15),
        (3, 2, 15, 14, 0xfff9, 15),
        (3, 2, 0, 14, 0xfff9, 15),
        (3, 2, 0, 14, 0b1001, 16),
    ];
    for (from, to, page, hops, copies, number) in cases {
        let message = grant(page, from, to, hops, copies, counting(1));
        expect_number(&rt, board.arrive(&message, &mut link), number);
    }
    let message = grant(1, 3, 2, 14, 0b1001, counting(1));
    expect_number(&rt, board.arrive(&message, &mut link), 9);
    expect_posts(&rt, &mut link, &[Message::BLANK]);
    expect_arrival(
        &rt,
        board.arrive(&message, &mut link),
        moved(2, Kind::Grant, 14),
    );
    Ok(())
}
