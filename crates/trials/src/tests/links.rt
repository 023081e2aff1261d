use super::refusal;
use std::test::Fail;
use wire::cap::Cap;
use wire::fault::Fault;
use wire::link::Link;
use wire::message::Message;
use wire::pool::Pool;
use wire::queue::Queue;

fn about(page: u32) -> Message {
    Message {
        page,
        ..Message::BLANK
    }
}

/// The page of the message that is taken, where one waits.
fn take_page<L: Link>(link: &mut L, pick: u16) -> Option<u32> {
    link.take(pick).map(|message| message.page)
}

fn post_pages<L: Link>(link: &mut L, count: u32) -> Result<(), Fault> {
    for page in 0..count {
        link.post(about(page))?;
    }
    Ok(())
}

#[test]
fn limits(rt: HostRuntime) -> Result<(), Fail> {
    assert_eq!(rt; refusal(Queue::new(0)), 8);
    assert_eq!(rt; refusal(Queue::new(1)), 0);
    assert_eq!(rt; refusal(Queue::new(288)), 0);
    assert_eq!(rt; refusal(Queue::new(289)), 8);
    assert_eq!(rt; refusal(Pool::new(0)), 8);
    assert_eq!(rt; refusal(Pool::new(u16::MAX)), 8);
    assert_eq!(rt; Pool::new(288)?.limit(), 288);
    assert_eq!(rt; Queue::new(7)?.limit(), 7);
    Ok(())
}

#[test]
fn queue_of_one(rt: HostRuntime) -> Result<(), Fail> {
    let mut link = Queue::new(1)?;
    assert_eq!(rt; take_page(&mut link, 0), None);
    assert_eq!(rt; refusal(link.post(about(4))), 0);
    assert_eq!(rt; refusal(link.post(about(5))), 9);
    assert_eq!(rt; link.count(), 1);
    assert_eq!(rt; take_page(&mut link, 3), Some(4));
    assert_eq!(rt; refusal(link.post(about(6))), 0);
    assert_eq!(rt; take_page(&mut link, 0), Some(6));
    Ok(())
}

#[test]
fn queue_is_in_order(rt: HostRuntime) -> Result<(), Fail> {
    let mut link = Queue::new(10)?;
    post_pages(&mut link, 3)?;
    assert_eq!(rt; take_page(&mut link, 2), Some(0));
    link.post(about(3))?;
    assert_eq!(rt; take_page(&mut link, u16::MAX), Some(1));
    assert_eq!(rt; take_page(&mut link, 1), Some(2));
    assert_eq!(rt; take_page(&mut link, 0), Some(3));
    assert_eq!(rt; take_page(&mut link, 0), None);
    Ok(())
}

#[test]
fn pool_is_by_pick(rt: HostRuntime) -> Result<(), Fail> {
    let mut link = Pool::new(10)?;
    // 0 1 2 3: place 5 mod 4 is 1; then 0 2 3: place 2 is 3; then 0 2: place 7 mod 2 is 2; then 0
    post_pages(&mut link, 4)?;
    assert_eq!(rt; take_page(&mut link, 5), Some(1));
    assert_eq!(rt; take_page(&mut link, 2), Some(3));
    assert_eq!(rt; take_page(&mut link, 7), Some(2));
    assert_eq!(rt; take_page(&mut link, u16::MAX), Some(0));
    assert_eq!(rt; take_page(&mut link, 0), None);
    Ok(())
}

#[test]
fn caps(rt: HostRuntime) -> Result<(), Fail> {
    assert_eq!(rt; refusal(Cap::new(Queue::new(3)?, 0)), 8);
    assert_eq!(rt; refusal(Cap::new(Queue::new(3)?, 289)), 8);
    assert_eq!(rt; Cap::new(Queue::new(3)?, 288)?.limit(), 3);
    let mut busy = Queue::new(3)?;
    busy.post(about(1))?;
    assert_eq!(rt; refusal(Cap::new(busy, 0)), 7);
    Ok(())
}

#[test]
fn piled_caps(rt: HostRuntime) -> Result<(), Fail> {
    let mut link = Cap::new(Cap::new(Pool::new(9)?, 5)?, 3)?;
    assert_eq!(rt; link.limit(), 3);
    post_pages(&mut link, 3)?;
    assert_eq!(rt; refusal(link.post(about(8))), 9);
    assert_eq!(rt; link.count(), 3);
    assert_eq!(rt; take_page(&mut link, 4), Some(1));
    assert_eq!(rt; refusal(link.post(about(8))), 0);
    assert_eq!(rt; take_page(&mut link, 2), Some(8));
    assert_eq!(rt; refusal(crate::piles::piled(about(2), 6)), 0);
    Ok(())
}
