ghost use Rattle.std.specs.Prelude.{◌≡◌, ℕ, ◌≤◌};
ghost use Rattle.wire.specs.Bags.{Bag, size};
ghost use Rattle.wire.specs.Questions.{refusal, first_no};
ghost use Rattle.wire.specs.Links.{limit_questions, room_questions, Posted, Taken, NeverOver};
ghost use Rattle.wire.specs.declared.message.Message.{Message as Item};

use crate::choice::Choice;
use crate::fault::Fault;
use crate::message::Message;

/// The largest limit that a link or a cap is made with.
pub const LARGEST_LIMIT: u16 = 288;

/// Is a limit in range?
pub(crate) fn ask_limit(limit: u16) -> Result<(), Fault>
    ensures { refusal result ≡ first_no (limit_questions limit) }
{
    if !(1..=LARGEST_LIMIT).contains(&limit) {
        return Err(Fault::LimitOutOfRange);
    }
    Ok(())
}

/// What carries messages between boards: its limit, and the messages that wait on it, are all that it means.
pub trait Link: Choice {
    ghost limit: { Self → ℕ };

    ghost waiting: { Self → Bag Item };

    /// Adds a message while fewer wait than the limit; else it is refused with 9.
    fn post(&mut self, message: Message) -> Result<(), Fault>
        ensures posted { Posted limit waiting self.old message result self.new }
        ensures joined { Self.Choice.joins self.old message result self.new };

    /// Hands over one of the waiting messages, of the link's choice, or says that nothing waits.
    fn take(&mut self, pick: u16) -> Option<Message>
        ensures taken { Taken limit waiting self.old result self.new }
        ensures chosen { Self.Choice.chooses self.old pick result self.new };

    /// How many messages wait.
    fn count(&self) -> u16
        ensures { result ≡ size (waiting self.now) };

    /// How many messages may wait.
    fn limit(&self) -> u16
        ensures { result ≡ limit self.now };

    ghost bound: { (s : Self) → limit s ≤ 65535 };
}

/// Are so many places free on a link?
pub fn ask_room<L: Link>(link: &L, places: u16) -> Result<(), Fault>
    ensures { refusal result ≡ first_no (room_questions (L.limit link.now) (size (L.waiting link.now)) places) }
{
    if u32::from(link.count()) + u32::from(places) > u32::from(link.limit()) {
        return Err(Fault::LinkFull);
    }
    Ok(())
}

/// Never do more messages wait than the limit, whatever is called on a link that began empty.
#[tactic(auto, using(crate::proofs::Bounds::never_over))]
pub fn never_over_the_limit<L: Link>(_link: &L)
    ensures { NeverOver L.limit L.waiting }
{}
