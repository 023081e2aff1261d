ghost use Rattle.std.specs.Prelude.{◌≡◌, ◌+◌, ◌≤◌, None, ◌++◌, [], length, IfOk, MatchResult};
ghost use Rattle.wire.specs.Bags.{size};
ghost use Rattle.wire.specs.Links.{room_questions};
ghost use Rattle.wire.specs.Questions.{refusal, first_no};
ghost use Rattle.board.specs.Outboxes.{posts, outbox_room};
ghost use Rattle.lone.specs.Calls.{Is, IsOver, arrive_at};
ghost use Rattle.lone.specs.LoneBoards.{lone_of};
ghost use Rattle.lone.specs.PostLaws.{GoodPosts};
ghost use Rattle.lone.specs.LoneQuestions.{arrival_questions, belongs, expects};

use super::LoneBoard;
use board::answer::Arrival;
use board::outbox::{OUTBOX_ROOM, Outbox};
use records::form::ask_form;
use wire::fault::Fault;
use wire::link::{Link, ask_room};
use wire::message::Message;

impl LoneBoard {
    /// A message arrives, over a link.
    pub fn arrive<L: Link>(&mut self, message: &Message, link: &mut L) -> Result<Arrival, Fault>
        ensures refused { refusal result ≡ first_no (arrival_questions (lone_of self.old) message.now ++ room_questions (L.limit link.old) (size (L.waiting link.old)) outbox_room) }
        ensures done { MatchResult result
            (λ answer. IsOver L.Link.limit L.waiting L.Choice.joins (arrive_at (lone_of self.old) message.now) (lone_of self.new) answer link.old link.new)
            (λ _. (self.new ≡ self.old) × (link.new ≡ link.old)) }
        ensures posts { IfOk result (λ _. GoodPosts (lone_of self.old) (arrive_at (lone_of self.old) message.now).posts) }
    {
        self.ask_arrival(message, link)?;
        let mut out = Outbox::new();
        let answer = self.take_in(message, &mut out);
        out.send(link)?;
        Ok(answer)
    }

    /// A message arrives. What the board posts stands in the outbox, which must be empty.
    pub fn arrive_step(&mut self, message: &Message, out: &mut Outbox) -> Result<Arrival, Fault>
        ensures refused { refusal result ≡ first_no (arrival_questions (lone_of self.old) message.now ++ room_questions outbox_room (length (posts out.old)) outbox_room) }
        ensures done { MatchResult result
            (λ answer. Is (arrive_at (lone_of self.old) message.now) (lone_of self.new) (posts out.new) answer)
            (λ _. (self.new ≡ self.old) × (out.new ≡ out.old)) }
        ensures posts { IfOk result (λ _. GoodPosts (lone_of self.old) (arrive_at (lone_of self.old) message.now).posts) }
    {
        self.ask_arrival_step(message, out)?;
        Ok(self.take_in(message, out))
    }

    /// What a message is asked over a link: the room comes last.
    fn ask_arrival<L: Link>(&self, message: &Message, link: &L) -> Result<(), Fault>
        ensures refused { refusal result ≡ first_no (arrival_questions (lone_of self.now) message.now ++ room_questions (L.limit link.now) (size (L.waiting link.now)) outbox_room) }
        ensures passed { IfOk result (λ _. (first_no (arrival_questions (lone_of self.now) message.now) ≡ None) × (size (L.waiting link.now) + outbox_room ≤ L.limit link.now)) }
    {
        self.ask_message(message)?;
        ask_room(link, OUTBOX_ROOM)
    }

    fn ask_arrival_step(&self, message: &Message, out: &Outbox) -> Result<(), Fault>
        ensures refused { refusal result ≡ first_no (arrival_questions (lone_of self.now) message.now ++ room_questions outbox_room (length (posts out.now)) outbox_room) }
        ensures passed { IfOk result (λ _. (first_no (arrival_questions (lone_of self.now) message.now) ≡ None) × (posts out.now ≡ [])) }
    {
        self.ask_message(message)?;
        out.ask_empty()
    }

    /// What a message is asked of itself and of the board.
    fn ask_message(&self, message: &Message) -> Result<(), Fault>
        ensures { refusal result ≡ first_no (arrival_questions (lone_of self.now) message.now) }
    {
        ask_form(message)?;
        if !self.belongs(message) {
            return Err(Fault::DoesNotBelong);
        }
        if !self
            .state
            .expects(&self.table.entries[message.page as usize], message)
        {
            return Err(Fault::NotExpected);
        }
        Ok(())
    }

    /// Is a message addressed here, with all boards and the page of this kit?
    fn belongs(&self, message: &Message) -> bool
        ensures { result ≡ belongs (lone_of self.now) message.now }
    {
        message.to == self.state.number()
            && self.size.has_board(message.from)
            && self.size.has_board(message.asker)
            && self.size.has_boards(&message.copies)
            && self.size.has_page(message.page)
    }

    fn take_in(&mut self, message: &Message, out: &mut Outbox) -> Arrival
        requires accepted { first_no (arrival_questions (lone_of self.old) message.now) ≡ None }
        requires empty { posts out.old ≡ [] }
        ensures done { Is (arrive_at (lone_of self.old) message.now) (lone_of self.new) (posts out.new) result }
        ensures posts { GoodPosts (lone_of self.old) (arrive_at (lone_of self.old) message.now).posts }
    {
        self.state.arrive(message, &mut self.table.entries[message.page as usize], out)
    }
}
