ghost use Rattle.std.specs.Prelude.{◌≡◌, ◌+◌, ◌<◌, ◌≤◌, [], ◌∷◌, ◌++◌, length, MatchResult};
ghost use Rattle.wire.specs.Bags.{size};
ghost use Rattle.wire.specs.Links.{room_questions, Sent, InTurn};
ghost use Rattle.wire.specs.Questions.{refusal, first_no};

use arrayvec::ArrayVec;
use wire::fault::Fault;
use wire::link::{Link, ask_room};
use wire::message::Message;

/// How many messages an outbox has room for: no step posts more.
pub const OUTBOX_ROOM: u16 = 16;

/// The messages that a step posts, in their order. It can be let go only when it is empty.
pub struct Outbox {
    messages: ArrayVec<Message, 16>,
    ghost within: { length messages.items ≤ 16 },
}

impl Drop for Outbox {
    ghost use Rattle.board.specs.Outboxes.{posts};

    fn drop(self)
        requires { posts self ≡ [] }
    {
        let Outbox { messages: _ } = self;
    }
}

impl Outbox {
    ghost use Rattle.board.specs.Outboxes.{posts, outbox_room};

    pub fn new() -> Outbox
        ensures { posts result ≡ [] }
    {
        Outbox {
            messages: ArrayVec::new(),
        }
    }

    /// The messages, the first to be posted first.
    pub fn messages(&self) -> &[Message]
        ensures { result.now ≡ posts self.now }
    {
        self.messages.as_slice()
    }

    /// Is all the room free?
    pub fn ask_empty(&self) -> Result<(), Fault>
        ensures { refusal result ≡ first_no (room_questions outbox_room (length (posts self.now)) outbox_room) }
    {
        if !self.messages.is_empty() {
            return Err(Fault::LinkFull);
        }
        Ok(())
    }

    /// Puts a message behind the others.
    pub(crate) fn add(&mut self, message: Message)
        requires { length (posts self.old) < outbox_room }
        ensures { posts self.new ≡ posts self.old ++ message ∷ [] }
    {
        self.messages.push(message);
    }

    /// Posts all messages in their order, or none.
    pub fn send<L: Link>(&mut self, link: &mut L) -> Result<(), Fault>
        ensures refused { refusal result ≡ first_no (room_questions (L.limit link.old) (size (L.waiting link.old)) (length (posts self.old))) }
        ensures sent { MatchResult result
            (λ _. (posts self.new ≡ []) × Sent L.Link.limit L.waiting (posts self.old) link.old link.new × InTurn L.Choice.joins (posts self.old) link.old link.new)
            (λ _. (self.new ≡ self.old) × (link.new ≡ link.old)) }
    {
        ask_room(link, self.messages.len() as u16)?;
        for message in self.messages.as_slice() {
            link.post(*message)?;
        }
        self.messages.clear();
        Ok(())
    }
}
