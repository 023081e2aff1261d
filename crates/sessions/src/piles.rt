use kit::loading::Loading;
use kit::running::Running;
use memory::call::Call as KitCall;
use script::answer::Answer;
use script::call::{Call, KitPlan, LinkKind};
use script::line::Line;
use script::record::read_call;
use std::alloc::{AllocError, Global};
use wire::cap::Cap;
use wire::fault::Fault;
use wire::link::{LARGEST_LIMIT, Link};
use wire::pool::Pool;
use wire::queue::Queue;

/// How many characters a record has.
const RECORD: usize = 16;

/// Why there is no listing.
#[derive(Clone, Copy, Debug)]
pub(crate) enum NotPlayed {
    /// A link or a cap was refused.
    Refused(Fault),
    /// There was no memory for the listing.
    NoMemory(AllocError),
}

impl From<Fault> for NotPlayed {
    fn from(fault: Fault) -> NotPlayed {
        NotPlayed::Refused(fault)
    }
}

impl From<AllocError> for NotPlayed {
    fn from(error: AllocError) -> NotPlayed {
        NotPlayed::NoMemory(error)
    }
}

/// A kit over whatever link, played through the library.
#[derive(Drop)]
enum Stage<L> {
    NoKit(L),
    Loading(Loading<L>),
    Running(Running<L>),
    /// A kit was refused, and with it the session is over.
    Over,
}

/// What a record answers, and what it leaves.
#[derive(Drop)]
struct Turn<L> {
    answer: Result<Answer, Fault>,
    stage: Stage<L>,
}

fn make<L: Link + Drop>(link: L, plan: KitPlan) -> Turn<L> {
    match Loading::new(link, plan.boards, plan.pages) {
        Ok(kit) => Turn {
            answer: Ok(Answer::Made(plan)),
            stage: Stage::Loading(kit),
        },
        Err(fault) => Turn {
            answer: Err(fault),
            stage: Stage::Over,
        },
    }
}

fn place<L: Link>(mut kit: Loading<L>, address: u32, word: u32) -> Turn<L> {
    let answer = match kit.place(address, word) {
        Ok(()) => Ok(Answer::Placed { address, word }),
        Err(fault) => Err(fault),
    };
    Turn {
        answer,
        stage: Stage::Loading(kit),
    }
}

fn run<L: Link>(mut kit: Running<L>, call: KitCall) -> Turn<L> {
    let answer = match kit.call(call) {
        Ok(answer) => Ok(Answer::Ran { call, answer }),
        Err(fault) => Err(fault),
    };
    Turn {
        answer,
        stage: Stage::Running(kit),
    }
}

/// The first call that is not refused starts the kit.
fn start<L: Link>(kit: Loading<L>, call: KitCall) -> Turn<L> {
    let asked = match call {
        KitCall::Load { board, address } | KitCall::Store { board, address, .. } => {
            kit.ask_access(board, address)
        }
        KitCall::Deliver { .. } => Ok(()),
    };
    match asked {
        Ok(()) => run(kit.start(), call),
        Err(fault) => Turn {
            answer: Err(fault),
            stage: Stage::Loading(kit),
        },
    }
}

fn carry_out<L: Link + Drop>(stage: Stage<L>, text: &[u8]) -> Turn<L> {
    let call = match read_call(text) {
        Ok(call) => call,
        Err(fault) => {
            return Turn {
                answer: Err(fault),
                stage,
            };
        }
    };
    match (stage, call) {
        (Stage::NoKit(link), Call::Kit(plan)) => make(link, plan),
        (Stage::Loading(kit), Call::Place { address, word }) => place(kit, address, word),
        (Stage::Loading(kit), Call::Run(call)) => start(kit, call),
        (Stage::Running(kit), Call::Run(call)) => run(kit, call),
        (stage, _) => Turn {
            answer: Err(Fault::OutOfPlace),
            stage,
        },
    }
}

/// The listing of a script whose kit is over a link that is given.
fn play_over<L: Link + Drop>(heap: Global, script: &[u8], link: L) -> Result<Vec<u8>, AllocError> {
    let mut listing = Vec::new(heap);
    let mut stage = Stage::NoKit(link);
    for record in script.chunks(RECORD) {
        let done = carry_out(stage, record);
        stage = done.stage;
        let refused = done.answer.is_err();
        let line: Line = match done.answer {
            Ok(answer) => answer.into(),
            Err(fault) => fault.into(),
        };
        listing.extend_from_slice(&line.text())?;
        if refused && record.starts_with(b"K") {
            break;
        }
    }
    Ok(listing)
}

/// Two caps over a link, neither of which leaves it as it is, and both wide enough for a kit of 16 boards.
fn piled<L: Link + Drop>(link: L) -> Result<Cap<Cap<L>>, Fault> {
    Cap::new(Cap::new(link, LARGEST_LIMIT - 8)?, LARGEST_LIMIT - 4)
}

/// The link that a script names first.
fn link_named(script: &[u8]) -> LinkKind {
    for text in script.chunks(RECORD) {
        if let Ok(Call::Kit(plan)) = read_call(text) {
            return plan.link;
        }
    }
    LinkKind::Queue
}

/// The listing of a script over two caps on the link that it names. Their choice is that of the link, so it is the listing
/// without them.
pub(crate) fn play_over_caps(heap: Global, script: &[u8]) -> Result<Vec<u8>, NotPlayed> {
    match link_named(script) {
        LinkKind::Queue => Ok(play_over(heap, script, piled(Queue::new(LARGEST_LIMIT)?)?)?),
        LinkKind::Pool => Ok(play_over(heap, script, piled(Pool::new(LARGEST_LIMIT)?)?)?),
    }
}
