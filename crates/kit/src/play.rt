ghost use Rattle.std.specs.Prelude.{◌≡◌, ℕ, None, reverse, IsSomeAnd, IfOk, MatchResult};
ghost use Rattle.wire.specs.Bags.{size};
ghost use Rattle.wire.specs.Questions.{refusal, first_no};
ghost use Rattle.memory.specs.Kits.{start_kit};
ghost use Rattle.memory.specs.Placements.{after_placing};
ghost use Rattle.kit.specs.Loadings.{loading_kit, loading_link};
ghost use Rattle.kit.specs.Plays.{placing_questions, setup_questions, Started, AnsweredFrom, PlaysTurns};
ghost use Rattle.kit.specs.Runs.{GoesOn};

use crate::loading::Loading;
use crate::running::Running;
use memory::answer::Answer;
use memory::call::Call;
use memory::placement::Placement;
use wire::fault::Fault;
use wire::link::Link;

/// A call, and the place for the answer to it.
#[derive(Clone, Copy, PartialEq, Eq, Debug)]
pub struct Turn {
    pub call: Call,
    pub answer: Option<Result<Answer, Fault>>,
}

impl From<Call> for Turn {
    ghost from_gives = { λ call turn. turn ≡ record { call = call; answer = None } };

    fn from(call: Call) -> Turn {
        Turn { call, answer: None }
    }
}

/// Places words, one after another, as far as none is refused.
fn place_all<L: Link>(kit: &mut Loading<L>, words: &[Placement]) -> Result<(), Fault>
    ensures refused { refusal result ≡ first_no (placing_questions (loading_kit kit.old).pages words.now) }
    ensures placed { IfOk result (λ _. (boards pages : ℕ) → loading_kit kit.old ≡ start_kit boards pages → loading_kit kit.new ≡ after_placing boards pages (reverse words.now)) }
    ensures link { loading_link kit.new ≡ loading_link kit.old }
{
    for word in words {
        kit.place(word.address, word.word)?;
    }
    Ok(())
}

/// Makes a kit over an empty link, places words and starts it.
fn begin<L: Link + Drop>(
    link: L,
    boards: u8,
    pages: u32,
    words: &[Placement],
) -> Result<Running<L>, Fault>
    ensures refused { refusal result ≡ first_no (setup_questions boards pages (L.limit link) (size (L.waiting link)) words.now) }
    ensures started { IfOk result (λ kit. Started boards pages link words.now kit) }
{
    let mut kit = Loading::new(link, boards, pages)?;
    place_all(&mut kit, words)?;
    Ok(kit.start())
}

/// Carries out the call of a turn, and puts the answer in its place.
fn carry_out<L: Link>(kit: &mut Running<L>, turn: &mut Turn)
    ensures call { turn.new.call ≡ turn.old.call }
    ensures answer { IsSomeAnd turn.new.answer
        (λ answer. GoesOn L.Link.limit L.waiting L.Choice.joins L.Choice.chooses turn.old.call answer kit.old kit.new) }
{
    turn.answer = Some(kit.call(turn.call));
}

/// Carries out the calls of turns, one after another.
fn call_all<L: Link>(kit: &mut Running<L>, turns: &mut [Turn])
    ensures { AnsweredFrom L.Link.limit L.waiting L.Choice.joins L.Choice.chooses kit.old turns.old turns.new kit.new }
{
    for turn in turns.iter_mut() {
        carry_out(kit, turn);
    }
}

/// Makes a kit over an empty link, places words, starts it, and plays turns: each is given the answer to its call. What
/// stood in the places for the answers does not count. Where it is refused, the turns are left as they were.
pub fn play<L: Link + Drop>(
    link: L,
    boards: u8,
    pages: u32,
    words: &[Placement],
    turns: &mut [Turn],
) -> Result<Running<L>, Fault>
    ensures refused { refusal result
        ≡ first_no (setup_questions boards pages (L.limit link) (size (L.waiting link)) words.now) }
    ensures played { MatchResult result
        (λ kit. PlaysTurns L.Link.limit L.waiting L.Choice.joins L.Choice.chooses
        boards pages link words.now turns.old turns.new kit)
        (λ _. turns.new ≡ turns.old) }
{
    let mut kit = begin(link, boards, pages, words)?;
    call_all(&mut kit, turns);
    Ok(kit)
}
