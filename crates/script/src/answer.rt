ghost use Rattle.std.specs.Prelude.{◌≡◌};
ghost use Rattle.wire.specs.Faults.{number};
ghost use Rattle.script.specs.Letters.{letter_a};
ghost use Rattle.script.specs.Lines.{line_of, refused_line, numbers_of, arrival_line, ran_line};

use crate::call::KitPlan;
use crate::line::Line;
use crate::numbers::Numbers;
use board::answer::{AccessAnswer, Arrival};
use memory::answer::Answer as KitAnswer;
use memory::call::Call as KitCall;
use wire::fault::Fault;

/// What the bench answers to a record that it carries out.
#[derive(Clone, Copy)]
pub enum Answer {
    /// A kit was made.
    Made(KitPlan),
    /// A word was placed.
    // An address and its word are a key and its value, and need no struct of their own.
    Placed { address: u32, word: u32 },
    /// The running kit answered a call.
    Ran { call: KitCall, answer: KitAnswer },
}

impl From<Answer> for Line {
    ghost from_gives = { λ answer line. line ≡ line_of answer };

    fn from(answer: Answer) -> Line {
        match answer {
            // These lines have the numbers of their records again.
            Answer::Made(plan) => answered(Numbers {
                two: plan.boards.into(),
                three: plan.pages,
                eight: plan.link.into(),
            }),
            Answer::Placed { address, word } => answered(Numbers {
                two: 0,
                three: address,
                eight: word,
            }),
            Answer::Ran { call, answer } => ran(call.into(), answer),
        }
    }
}

/// The numbers that the record of a call has.
impl From<KitCall> for Numbers {
    ghost from_gives = { λ call n. n ≡ numbers_of call };

    fn from(call: KitCall) -> Numbers {
        match call {
            KitCall::Load { board, address } => Numbers {
                two: board.into(),
                three: address,
                eight: 0,
            },
            KitCall::Store {
                board,
                address,
                word,
            } => Numbers {
                two: board.into(),
                three: address,
                eight: word,
            },
            KitCall::Deliver { pick } => Numbers {
                two: 0,
                three: pick.into(),
                eight: 0,
            },
        }
    }
}

/// A line of A.
fn answered(numbers: Numbers) -> Line
    ensures { result ≡ record { letter = letter_a; numbers = numbers; hops = 0 } }
{
    Line {
        letter: b'A',
        numbers,
        hops: 0,
    }
}

/// The line of a kit's answer to a call of these numbers.
fn ran(numbers: Numbers, answer: KitAnswer) -> Line
    ensures { result ≡ ran_line numbers answer }
{
    match answer {
        KitAnswer::Accessed(AccessAnswer::Answered { word }) => answered(Numbers {
            eight: word,
            ..numbers
        }),
        KitAnswer::Accessed(AccessAnswer::Opened) => Line {
            letter: b'O',
            numbers,
            hops: 0,
        },
        KitAnswer::Arrived(arrival) => arrival.into(),
        KitAnswer::Quiet => Line {
            letter: b'Q',
            numbers: Numbers::ZERO,
            hops: 0,
        },
    }
}

/// The line of an arrival.
impl From<Arrival> for Line {
    ghost from_gives = { λ arrival line. line ≡ arrival_line arrival };

    fn from(arrival: Arrival) -> Line {
        match arrival {
            Arrival::Moved { board, kind, hops } => Line {
                letter: b'M',
                numbers: Numbers {
                    two: board.into(),
                    three: u8::from(kind).into(),
                    eight: 0,
                },
                hops: hops.into(),
            },
            Arrival::Finished(finished) => Line {
                letter: b'F',
                numbers: Numbers {
                    two: finished.board.into(),
                    three: finished.address,
                    eight: finished.word,
                },
                hops: finished.hops.into(),
            },
        }
    }
}

/// A refusal's line has its number.
impl From<Fault> for Line {
    ghost from_gives = { λ fault line. line ≡ refused_line (number fault) };

    fn from(fault: Fault) -> Line {
        let numbers = Numbers {
            three: u16::from(fault).into(),
            ..Numbers::ZERO
        };
        Line {
            letter: b'X',
            numbers,
            hops: 0,
        }
    }
}
