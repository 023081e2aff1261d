use super::lone_fixtures::{
    counting, expect_number, expect_posts, grant, invalidate, read_request, write_request,
};
use lone::lone_board::LoneBoard;
use std::process::Abort;
use std::test::Fail;
use wire::link::Link;
use wire::message::Message;
use wire::queue::Queue;

#[test]
fn making(rt: HostRuntime) {
    // number, boards, pages, refusal: 4 and 5 come before 1
    let cases: [(u8, u8, u32, u16); 17] = [
        (0, 1, 1, 0),
        (15, 16, 16, 0),
        (3, 4, 1, 0),
        (1, 1, 1, 1),
        (4, 4, 1, 1),
        (16, 16, 16, 1),
        (255, 16, 1, 1),
        (0, 0, 1, 4),
        (0, 17, 1, 4),
        (255, 255, 1, 4),
        (255, 0, 0, 4),
        (0, 17, 17, 4),
        (0, 1, 0, 5),
        (0, 1, 17, 5),
        (0, 16, 1_048_576, 5),
        (1, 1, 0, 5),
        (16, 16, 17, 5),
    ];
    for (number, boards, pages, refused) in cases {
        expect_number(&rt, LoneBoard::new(number, boards, pages), refused);
    }
}

#[test]
fn addresses(rt: HostRuntime) -> Result<(), Fail> {
    // pages, address, refusal: the addresses are 0 to 16 P - 1
    let cases: [(u32, u32, u16); 8] = [
        (1, 0, 0),
        (1, 15, 0),
        (1, 16, 2),
        (3, 47, 0),
        (3, 48, 2),
        (16, 255, 0),
        (16, 256, 2),
        (16, u32::MAX, 2),
    ];
    for (pages, address, number) in cases {
        let mut link = Queue::new(16)?;
        let mut board = LoneBoard::new(0, 3, pages)?;
        expect_number(&rt, board.load(address, &mut link), number);
        expect_number(&rt, board.store(address, 7, &mut link), number);
        assert_eq!(rt; link.count(), 0);
    }
    Ok(())
}

/// While an access is open, a load and a store are refused with 3 wherever they are; but 2 comes before it, and 9 after it.
fn expect_open<L: Link>(rt: &impl Abort, board: &mut LoneBoard, link: &mut L) {
    let cases: [(u32, u16); 4] = [(20, 3), (0, 3), (31, 3), (32, 2)];
    for (address, number) in cases {
        expect_number(rt, board.load(address, link), number);
        expect_number(rt, board.store(address, 5, link), number);
    }
}

#[test]
fn one_open_access(rt: HostRuntime) -> Result<(), Fail> {
    let mut link = Queue::new(16)?;
    // the link has no more room for a step once a request waits on it
    let mut loading = LoneBoard::new(2, 4, 2)?;
    loading.load(20, &mut link)?;
    expect_open(&rt, &mut loading, &mut link);
    expect_posts(&rt, &mut link, &[read_request(1, 2, 0, 2, 0)]);
    let mut storing = LoneBoard::new(2, 4, 2)?;
    storing.store(20, 7, &mut link)?;
    expect_open(&rt, &mut storing, &mut link);
    expect_posts(&rt, &mut link, &[write_request(1, 2, 0, 2, 0)]);
    expect_open(&rt, &mut storing, &mut link);
    storing.arrive(&grant(1, 0, 2, 0, 0b1010, counting(1)), &mut link)?;
    expect_open(&rt, &mut storing, &mut link);
    expect_posts(&rt, &mut link, &[invalidate(1, 2, 1), invalidate(1, 2, 3)]);
    expect_open(&rt, &mut storing, &mut link);
    Ok(())
}

#[test]
fn room_is_asked_last(rt: HostRuntime) -> Result<(), Fail> {
    let mut link = Queue::new(16)?;
    link.post(Message::BLANK)?;
    let mut board = LoneBoard::new(0, 4, 2)?;
    // asked even where nothing would be posted
    expect_number(&rt, board.load(20, &mut link), 9);
    expect_number(&rt, board.store(20, 7, &mut link), 9);
    expect_number(&rt, board.load(32, &mut link), 2);
    expect_number(&rt, board.store(32, 7, &mut link), 2);
    // too low a limit never has the room
    let mut low = Queue::new(15)?;
    expect_number(&rt, board.load(20, &mut low), 9);
    expect_number(&rt, board.store(20, 7, &mut low), 9);
    expect_number(&rt, board.arrive(&read_request(1, 3, 0, 3, 0), &mut low), 9);
    link.take(0);
    expect_number(&rt, board.load(20, &mut link), 0);
    expect_number(&rt, board.store(20, 7, &mut link), 0);
    expect_number(
        &rt,
        board.arrive(&read_request(1, 3, 0, 3, 0), &mut link),
        0,
    );
    // one more place than a step may need
    let mut high = Queue::new(17)?;
    high.post(Message::BLANK)?;
    expect_number(&rt, board.load(20, &mut high), 0);
    Ok(())
}

#[test]
fn alone(rt: HostRuntime) -> Result<(), Fail> {
    // one board of one: whatever arrives names another board
    let mut link = Queue::new(16)?;
    let mut board = LoneBoard::new(0, 1, 1)?;
    expect_number(&rt, board.store(0, 5, &mut link), 0);
    expect_number(&rt, board.load(0, &mut link), 0);
    expect_number(
        &rt,
        board.arrive(&read_request(0, 0, 0, 0, 0), &mut link),
        12,
    );
    expect_number(
        &rt,
        board.arrive(&read_request(0, 1, 0, 0, 0), &mut link),
        15,
    );
    expect_number(
        &rt,
        board.arrive(&write_request(0, 1, 0, 1, 0), &mut link),
        15,
    );
    assert_eq!(rt; link.count(), 0);
    Ok(())
}
