ghost use Rattle.std.specs.Prelude.{◌≡◌, ◌+◌, ◌<◌, ◌≤◌, ◌&&◌, None, [], IfOk, nat_lt};
ghost use Rattle.wire.specs.Bags.{size};
ghost use Rattle.wire.specs.Questions.{refusal, first_no};
ghost use Rattle.board.specs.Outboxes.{posts, outbox_room};
ghost use Rattle.lone.specs.Calls.{load_at, store_at, arrive_at};
ghost use Rattle.lone.specs.LoneQuestions as lone;
ghost use Rattle.memory.specs.Calls.{access_questions, arrival_questions};
ghost use Rattle.memory.specs.Kits.{board_at};
ghost use Rattle.kit.specs.Clusters.{kit_of, over};
ghost use Rattle.kit.specs.Forms.{KitForm};
ghost use Rattle.kit.specs.Steps.{Steps};

use super::Cluster;
use board::address::page_of;
use board::answer::{AccessAnswer, Arrival};
use board::outbox::{OUTBOX_ROOM, Outbox};
use records::form::ask_form;
use wire::fault::Fault;
use wire::link::{Link, ask_room};
use wire::message::Message;

impl Cluster {
    /// What a load or a store is asked over a link: the room comes last.
    pub(crate) fn ask_access<L: Link>(&self, board: u8, address: u32, link: &L) -> Result<(), Fault>
        ensures { refusal result ≡ first_no (access_questions (over (kit_of self.now) (L.limit link.now) (L.waiting link.now)) board address) }
    {
        if !self.size.has_board(board) {
            return Err(Fault::NoSuchBoard);
        }
        if !self.size.has_address(address) {
            return Err(Fault::NoSuchAddress);
        }
        if !self.nodes[board as usize].state.is_idle() {
            return Err(Fault::AccessOpen);
        }
        ask_room(link, OUTBOX_ROOM)
    }

    /// What a message taken from a link is asked: the room comes last.
    pub(crate) fn ask_arrival<L: Link>(&self, message: &Message, link: &L) -> Result<(), Fault>
        requires { KitForm (kit_of self.now) }
        ensures refused { refusal result ≡ first_no (arrival_questions (over (kit_of self.now) (L.limit link.now) (L.waiting link.now)) message.now) }
        ensures passed { IfOk result (λ _. (message.now.to < (kit_of self.now).boards)
            × (first_no (lone.arrival_questions (board_at (kit_of self.now) message.now.to) message.now) ≡ None)
            × (size (L.waiting link.now) + outbox_room ≤ L.limit link.now)) }
    {
        ask_form(message)?;
        if !self.belongs(message) {
            return Err(Fault::DoesNotBelong);
        }
        let node = &self.nodes[message.to as usize];
        if !node
            .state
            .expects(&node.table.entries[message.page as usize], message)
        {
            return Err(Fault::NotExpected);
        }
        ask_room(link, OUTBOX_ROOM)
    }

    /// Are all boards and the page of a message of this kit?
    fn belongs(&self, message: &Message) -> bool
        requires { KitForm (kit_of self.now) }
        ensures { result ≡ (nat_lt message.now.to (kit_of self.now).boards && lone.belongs (board_at (kit_of self.now) message.now.to) message.now) }
    {
        self.size.has_board(message.to)
            && self.size.has_board(message.from)
            && self.size.has_board(message.asker)
            && self.size.has_boards(&message.copies)
            && self.size.has_page(message.page)
    }

    /// A board loads the word at an address, or opens the load.
    pub(crate) fn load(&mut self, board: u8, address: u32, out: &mut Outbox) -> AccessAnswer
        requires accepted { first_no (lone.access_questions (board_at (kit_of self.old) board) address) ≡ None }
        requires board { board < (kit_of self.old).boards }
        requires empty { posts out.old ≡ [] }
        requires forms { KitForm (kit_of self.old) }
        ensures { Steps board (load_at (board_at (kit_of self.old) board) address) (kit_of self.old) (kit_of self.new) (posts out.new) result }
    {
        let node = &mut self.nodes[board as usize];
        node.state.load(address, &node.table.entries[page_of(address) as usize], out)
    }

    /// A board stores a word at an address, or opens the store.
    pub(crate) fn store(
        &mut self,
        board: u8,
        address: u32,
        word: u32,
        out: &mut Outbox,
    ) -> AccessAnswer
        requires accepted { first_no (lone.access_questions (board_at (kit_of self.old) board) address) ≡ None }
        requires board { board < (kit_of self.old).boards }
        requires empty { posts out.old ≡ [] }
        requires forms { KitForm (kit_of self.old) }
        ensures { Steps board (store_at (board_at (kit_of self.old) board) address word) (kit_of self.old) (kit_of self.new) (posts out.new) result }
    {
        let node = &mut self.nodes[board as usize];
        node.state.store(
            address,
            word,
            &mut node.table.entries[page_of(address) as usize],
            out,
        )
    }

    /// A message arrives at the board that it is addressed to.
    pub(crate) fn arrive(&mut self, message: &Message, out: &mut Outbox) -> Arrival
        requires accepted { first_no (lone.arrival_questions (board_at (kit_of self.old) message.now.to) message.now) ≡ None }
        requires board { message.now.to < (kit_of self.old).boards }
        requires empty { posts out.old ≡ [] }
        requires forms { KitForm (kit_of self.old) }
        ensures { Steps message.now.to (arrive_at (board_at (kit_of self.old) message.now.to) message.now) (kit_of self.old) (kit_of self.new) (posts out.new) result }
    {
        let node = &mut self.nodes[message.to as usize];
        node.state.arrive(message, &mut node.table.entries[message.page as usize], out)
    }
}
