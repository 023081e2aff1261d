use super::refusal;
use crate::lottery::{Lottery, play_lottery};
use crate::placed_word::placed_word;
use board::answer::{AccessAnswer, Arrival, Finished};
use board::request::AccessKind;
use kit::loading::Loading;
use kit::play::{Turn, play};
use memory::answer::Answer;
use memory::call::Call;
use memory::placement::Placement;
use std::test::Fail;
use wire::fault::Fault;
use wire::link::Link;
use wire::message::{Kind, Message};
use wire::pool::Pool;
use wire::queue::Queue;

#[test]
fn making(rt: HostRuntime) -> Result<(), Fail> {
    // boards, pages, limit, refusal: N x N + 16 places are asked for
    let cases: [(u8, u32, u16, u16); 14] = [
        (1, 1, 17, 0),
        (1, 1, 16, 6),
        (2, 16, 20, 0),
        (2, 16, 19, 6),
        (16, 16, 272, 0),
        (16, 16, 271, 6),
        (0, 1, 288, 4),
        (17, 1, 288, 4),
        (255, 0, 1, 4),
        (1, 0, 288, 5),
        (1, 17, 288, 5),
        (16, 1_048_576, 1, 5),
        (8, 8, 79, 6),
        (8, 8, 80, 0),
    ];
    for (boards, pages, limit, number) in cases {
        assert_eq!(rt;
            refusal(Loading::new(Queue::new(limit)?, boards, pages)),
            number
        );
        assert_eq!(rt;
            refusal(Loading::new(Pool::new(limit)?, boards, pages)),
            number
        );
    }
    Ok(())
}

#[test]
fn busy_link(rt: HostRuntime) -> Result<(), Fail> {
    // a link that is not empty: 7, after 4, 5 and 6
    let cases: [(u8, u32, u16, u16); 4] = [
        (2, 2, 288, 7),
        (2, 2, 19, 6),
        (2, 0, 19, 5),
        (0, 0, 19, 4),
    ];
    for (boards, pages, limit, number) in cases {
        let mut link = Pool::new(limit)?;
        link.post(Message::BLANK)?;
        assert_eq!(rt; refusal(Loading::new(link, boards, pages)), number);
    }
    Ok(())
}

#[test]
fn placing(rt: HostRuntime) -> Result<(), Fail> {
    // pages, address, refusal: the addresses are 0 to 16 P - 1
    let cases: [(u32, u32, u16); 8] = [
        (1, 0, 0),
        (1, 15, 0),
        (1, 16, 2),
        (16, 255, 0),
        (16, 256, 2),
        (3, 47, 0),
        (3, 48, 2),
        (16, u32::MAX, 2),
    ];
    for (pages, address, number) in cases {
        let mut kit = Loading::new(Queue::new(288)?, 3, pages)?;
        assert_eq!(rt; refusal(kit.place(address, 7)), number);
    }
    Ok(())
}

#[test]
fn placed(rt: HostRuntime) -> Result<(), Fail> {
    assert_eq!(rt; placed_word(7)?, AccessAnswer::Answered { word: 7 });
    Ok(())
}

#[test]
fn passing_on(rt: HostRuntime) -> Result<(), Fail> {
    // board 1 stores and comes to own the page; board 2 hints at board 0, which passes its request on
    let mut kit = Loading::new(Queue::new(25)?, 3, 1)?.start();
    assert_eq!(rt; kit.store(1, 0, 5)?, AccessAnswer::Opened);
    assert_eq!(rt; kit.deliver(0)?, moved(0, Kind::WriteRequest, 0));
    assert_eq!(rt; kit.deliver(0)?, finished(1, AccessKind::Store, 0));
    assert_eq!(rt; kit.load(2, 0)?, AccessAnswer::Opened);
    assert_eq!(rt; kit.deliver(0)?, moved(0, Kind::ReadRequest, 0));
    assert_eq!(rt; kit.deliver(0)?, moved(1, Kind::ReadRequest, 1));
    assert_eq!(rt; kit.deliver(0)?, finished(2, AccessKind::Load, 1));
    assert_eq!(rt; kit.deliver(0)?, None);
    assert_eq!(rt; kit.opened(), 2);
    Ok(())
}

#[test]
fn running_refusals(rt: HostRuntime) -> Result<(), Fail> {
    // board, address, refusal of a load and of a store, while board 1 has an open load
    let cases: [(u8, u32, u16); 8] = [
        (2, 0, 1),
        (255, 16, 1),
        (0, 16, 2),
        (1, 16, 2),
        (1, u32::MAX, 2),
        (1, 0, 3),
        (1, 15, 3),
        (0, 15, 0),
    ];
    let loading = Loading::new(Pool::new(20)?, 2, 1)?;
    assert_eq!(rt; refusal(loading.ask_access(1, 0)), 0);
    assert_eq!(rt; refusal(loading.ask_access(1, 16)), 2);
    assert_eq!(rt; refusal(loading.ask_access(2, 16)), 1);
    let mut kit = loading.start();
    kit.load(1, 0)?;
    for (board, address, number) in cases {
        assert_eq!(rt; refusal(kit.load(board, address)), number);
        assert_eq!(rt; refusal(kit.store(board, address, 9)), number);
        assert_eq!(rt; kit.opened(), 1);
    }
    Ok(())
}

#[test]
fn plays_a_list(rt: HostRuntime) -> Result<(), Fail> {
    let words = [
        Placement {
            address: 3,
            word: 8,
        },
        Placement {
            address: 3,
            word: 9,
        },
    ];
    let load = Call::Load {
        board: 1,
        address: 3,
    };
    let mut turns = [
        Turn::from(load),
        Turn::from(load),
        Turn::from(Call::Deliver { pick: 0 }),
        Turn::from(Call::Deliver { pick: 65535 }),
        Turn::from(Call::Deliver { pick: 0 }),
    ];
    let answers = [
        Ok(Answer::Accessed(AccessAnswer::Opened)),
        Err(Fault::AccessOpen),
        Ok(Answer::Arrived(Arrival::Moved {
            board: 0,
            kind: Kind::ReadRequest,
            hops: 0,
        })),
        Ok(Answer::Arrived(Arrival::Finished(Finished {
            board: 1,
            kind: AccessKind::Load,
            address: 3,
            word: 9,
            hops: 0,
        }))),
        Ok(Answer::Quiet),
    ];
    let kit = play(Queue::new(288)?, 2, 1, &words, &mut turns)?;
    for (turn, answer) in turns.iter().zip(answers) {
        assert!(rt; turn.answer == Some(answer));
    }
    assert_eq!(rt; kit.opened(), 1);
    Ok(())
}

#[test]
fn refused_lists(rt: HostRuntime) -> Result<(), Fail> {
    // boards, pages, the address of a word, refusal: the kit is asked before its words
    let cases: [(u8, u32, u32, u16); 5] = [
        (0, 1, 16, 4),
        (2, 17, 16, 5),
        (17, 0, 16, 4),
        (2, 1, 16, 2),
        (2, 1, 15, 0),
    ];
    for (boards, pages, address, number) in cases {
        let words = [Placement { address, word: 1 }];
        let mut turns = [Turn::from(Call::Deliver { pick: 0 })];
        let played = play(Pool::new(288)?, boards, pages, &words, &mut turns);
        assert_eq!(rt; refusal(played), number);
        assert!(rt; turns[0].answer.is_none() == (number != 0));
    }
    Ok(())
}

#[test]
fn over_a_lottery(rt: HostRuntime) -> Result<(), Fail> {
    // board 1 opens a load of 5; the deliveries with nothing to deliver step the lottery too, and are quiet
    let words = [Placement {
        address: 0,
        word: 5,
    }];
    let load = Call::Load {
        board: 1,
        address: 0,
    };
    let deliver = Call::Deliver { pick: 0 };
    let mut turns = [deliver, load, deliver, deliver, deliver, load].map(Turn::from);
    let answers = [
        Some(Answer::Quiet),
        Some(Answer::Accessed(AccessAnswer::Opened)),
        moved(0, Kind::ReadRequest, 0).map(Answer::Arrived),
        finished(1, AccessKind::Load, 0).map(Answer::Arrived),
        Some(Answer::Quiet),
        Some(Answer::Accessed(AccessAnswer::Answered { word: 5 })),
    ];
    let kit = play_lottery(Lottery::new(20, 1)?, 2, 1, &words, &mut turns)?;
    for (turn, answer) in turns.iter().zip(answers) {
        assert!(rt; turn.answer == answer.map(Ok));
    }
    assert_eq!(rt; kit.opened(), 1);
    Ok(())
}

fn moved(board: u8, kind: Kind, hops: u8) -> Option<Arrival> {
    Some(Arrival::Moved { board, kind, hops })
}

/// An access of address 0 with word 5.
fn finished(board: u8, kind: AccessKind, hops: u8) -> Option<Arrival> {
    Some(Arrival::Finished(Finished {
        board,
        kind,
        address: 0,
        word: 5,
        hops,
    }))
}
