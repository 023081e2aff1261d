ghost use Rattle.std.specs.Prelude.{◌≡◌, None, ◌++◌, [], length, IfOk, MatchResult};
ghost use Rattle.wire.specs.Bags.{size};
ghost use Rattle.wire.specs.Links.{room_questions};
ghost use Rattle.wire.specs.Questions.{refusal, first_no};
ghost use Rattle.board.specs.Outboxes.{posts, outbox_room};
ghost use Rattle.lone.specs.Calls.{Is, IsOver, load_at, store_at};
ghost use Rattle.lone.specs.LoneBoards.{lone_of};
ghost use Rattle.lone.specs.PostLaws.{GoodPosts};
ghost use Rattle.lone.specs.LoneQuestions.{access_questions};

use super::LoneBoard;
use board::address::page_of;
use board::answer::AccessAnswer;
use board::outbox::{OUTBOX_ROOM, Outbox};
use wire::fault::Fault;
use wire::link::{Link, ask_room};

impl LoneBoard {
    /// Loads the word at an address, or opens the load, over a link.
    pub fn load<L: Link>(&mut self, address: u32, link: &mut L) -> Result<AccessAnswer, Fault>
        ensures refused { refusal result ≡ first_no (access_questions (lone_of self.old) address ++ room_questions (L.limit link.old) (size (L.waiting link.old)) outbox_room) }
        ensures done { MatchResult result
            (λ answer. IsOver L.Link.limit L.waiting L.Choice.joins (load_at (lone_of self.old) address) (lone_of self.new) answer link.old link.new)
            (λ _. (self.new ≡ self.old) × (link.new ≡ link.old)) }
        ensures posts { IfOk result (λ _. GoodPosts (lone_of self.old) (load_at (lone_of self.old) address).posts) }
    {
        self.ask_access(address)?;
        ask_room(link, OUTBOX_ROOM)?;
        let mut out = Outbox::new();
        let answer = self.open_load(address, &mut out);
        out.send(link)?;
        Ok(answer)
    }

    /// Stores a word at an address, or opens the store, over a link.
    pub fn store<L: Link>(
        &mut self,
        address: u32,
        word: u32,
        link: &mut L,
    ) -> Result<AccessAnswer, Fault>
        ensures refused { refusal result ≡ first_no (access_questions (lone_of self.old) address ++ room_questions (L.limit link.old) (size (L.waiting link.old)) outbox_room) }
        ensures done { MatchResult result
            (λ answer. IsOver L.Link.limit L.waiting L.Choice.joins (store_at (lone_of self.old) address word) (lone_of self.new) answer link.old link.new)
            (λ _. (self.new ≡ self.old) × (link.new ≡ link.old)) }
        ensures posts { IfOk result (λ _. GoodPosts (lone_of self.old) (store_at (lone_of self.old) address word).posts) }
    {
        self.ask_access(address)?;
        ask_room(link, OUTBOX_ROOM)?;
        let mut out = Outbox::new();
        let answer = self.open_store(address, word, &mut out);
        out.send(link)?;
        Ok(answer)
    }

    /// Loads the word at an address, or opens the load. What the board posts stands in the outbox, which must be empty.
    pub fn load_step(&mut self, address: u32, out: &mut Outbox) -> Result<AccessAnswer, Fault>
        ensures refused { refusal result ≡ first_no (access_questions (lone_of self.old) address ++ room_questions outbox_room (length (posts out.old)) outbox_room) }
        ensures done { MatchResult result
            (λ answer. Is (load_at (lone_of self.old) address) (lone_of self.new) (posts out.new) answer)
            (λ _. (self.new ≡ self.old) × (out.new ≡ out.old)) }
        ensures posts { IfOk result (λ _. GoodPosts (lone_of self.old) (load_at (lone_of self.old) address).posts) }
    {
        self.ask_access(address)?;
        out.ask_empty()?;
        Ok(self.open_load(address, out))
    }

    /// Stores a word at an address, or opens the store. What the board posts stands in the outbox, which must be empty.
    pub fn store_step(
        &mut self,
        address: u32,
        word: u32,
        out: &mut Outbox,
    ) -> Result<AccessAnswer, Fault>
        ensures refused { refusal result ≡ first_no (access_questions (lone_of self.old) address ++ room_questions outbox_room (length (posts out.old)) outbox_room) }
        ensures done { MatchResult result
            (λ answer. Is (store_at (lone_of self.old) address word) (lone_of self.new) (posts out.new) answer)
            (λ _. (self.new ≡ self.old) × (out.new ≡ out.old)) }
        ensures posts { IfOk result (λ _. GoodPosts (lone_of self.old) (store_at (lone_of self.old) address word).posts) }
    {
        self.ask_access(address)?;
        out.ask_empty()?;
        Ok(self.open_store(address, word, out))
    }

    /// What a load or a store is asked.
    fn ask_access(&self, address: u32) -> Result<(), Fault>
        ensures { refusal result ≡ first_no (access_questions (lone_of self.now) address) }
    {
        if !self.size.has_address(address) {
            return Err(Fault::NoSuchAddress);
        }
        if !self.state.is_idle() {
            return Err(Fault::AccessOpen);
        }
        Ok(())
    }

    fn open_load(&mut self, address: u32, out: &mut Outbox) -> AccessAnswer
        requires accepted { first_no (access_questions (lone_of self.old) address) ≡ None }
        requires empty { posts out.old ≡ [] }
        ensures done { Is (load_at (lone_of self.old) address) (lone_of self.new) (posts out.new) result }
        ensures posts { GoodPosts (lone_of self.old) (load_at (lone_of self.old) address).posts }
    {
        self.state.load(address, &self.table.entries[page_of(address) as usize], out)
    }

    fn open_store(&mut self, address: u32, word: u32, out: &mut Outbox) -> AccessAnswer
        requires accepted { first_no (access_questions (lone_of self.old) address) ≡ None }
        requires empty { posts out.old ≡ [] }
        ensures done { Is (store_at (lone_of self.old) address word) (lone_of self.new) (posts out.new) result }
        ensures posts { GoodPosts (lone_of self.old) (store_at (lone_of self.old) address word).posts }
    {
        self.state.store(
            address,
            word,
            &mut self.table.entries[page_of(address) as usize],
            out,
        )
    }
}
