ghost use Rattle.std.specs.Prelude.{◌≡◌, ◌/◌, IfOk, MatchResult};
ghost use Rattle.std.proofs.Common.{rules};
ghost use Rattle.wire.specs.Bags.{Empty};
ghost use Rattle.wire.specs.Links.{limit_questions};
ghost use Rattle.wire.specs.Questions.{refusal, first_no};
ghost use Rattle.kit.specs.Plays.{PlaysTurns};
ghost use Rattle.trials.specs.Lotteries.{drawn, next, limit_of, waiting_on, joins, draws};

use kit::play::{Turn, play};
use kit::running::Running;
use memory::placement::Placement;
use wire::choice::Choice;
use wire::fault::Fault;
use wire::link::Link;
use wire::message::Message;
use wire::pool::Pool;

/// A link that draws which message it hands over, by numbers of its own that step at each take, also at one where
/// nothing waits.
#[derive(Drop)]
pub struct Lottery {
    messages: Pool,
    number: u32,
}

impl Lottery {
    /// An empty lottery whose numbers begin behind `number`.
    pub fn new(limit: u16, number: u32) -> Result<Lottery, Fault>
        ensures refused { refusal result ≡ first_no (limit_questions limit) }
        ensures made { IfOk result (λ s. Empty (waiting_on s) × (limit_of s ≡ limit) × (drawn s ≡ number)) }
    {
        let messages = Pool::new(limit)?;
        Ok(Lottery { messages, number })
    }

    /// Steps to the next number, whose upper half is the draw.
    fn draw(&mut self) -> u16
        ensures messages { self.new.messages ≡ self.old.messages }
        ensures number { self.new.number ≡ next self.old.number }
        ensures draw { result ≡ next self.old.number / 65536 }
    {
        let wide = u64::from(self.number) * 1_664_525 + 1_013_904_223;
        self.number = (wide % 4_294_967_296) as u32;
        (self.number / 65_536) as u16
    }
}

impl Choice for Lottery {
    ghost joins = { λ s message r after. joins s message r after };

    ghost chooses = { λ s pick r after. draws s pick r after };
}

impl Link for Lottery {
    ghost limit = { λ s. limit_of s };

    ghost waiting = { λ s. waiting_on s };

    ghost bound = { Prim.search rules };

    fn post(&mut self, message: Message) -> Result<(), Fault> {
        self.messages.post(message)
    }

    fn take(&mut self, _pick: u16) -> Option<Message> {
        let draw = self.draw();
        self.messages.take(draw)
    }

    fn count(&self) -> u16 {
        self.messages.count()
    }

    fn limit(&self) -> u16 {
        self.messages.limit()
    }
}

/// A kit over a lottery promises what a kit over any link does.
pub fn play_lottery(
    link: Lottery,
    boards: u8,
    pages: u32,
    words: &[Placement],
    turns: &mut [Turn],
) -> Result<Running<Lottery>, Fault>
    ensures { MatchResult result
        (λ kit. PlaysTurns limit_of waiting_on joins draws boards pages link words.now turns.old turns.new kit)
        (λ _. turns.new ≡ turns.old) }
{
    play(link, boards, pages, words, turns)
}
