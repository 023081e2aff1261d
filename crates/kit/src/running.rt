ghost use Rattle.std.specs.Prelude.{◌≡◌, length};
ghost use Rattle.board.specs.Outboxes.{posts};
ghost use Rattle.kit.specs.Clusters.{kit_of};
ghost use Rattle.kit.specs.Forms.{KitForm};

use crate::cluster::Cluster;
use board::answer::{AccessAnswer, Arrival};
use board::outbox::Outbox;
use memory::answer::Answer;
use memory::call::Call;
use wire::fault::Fault;
use wire::link::Link;

/// A kit that was started: its boards keep one memory over the link.
#[derive(Drop)]
pub struct Running<L> {
    cluster: Cluster,
    link: L,
    // Empty between calls: it is kept only because making one anew takes time.
    out: Outbox,
    opened: u32,
    ghost forms: { KitForm (kit_of cluster) },
    ghost sent: { length (posts out) ≡ 0 },
}

impl<L: Link> Running<L> {
    ghost use Rattle.std.specs.Prelude.{◌+◌, Ok};
    ghost use Rattle.memory.specs.declared.answer.Answer.TheVariants.{Accessed};
    ghost use Rattle.memory.specs.declared.call.Call.TheVariants.{Load, Store, Deliver};
    ghost use Rattle.kit.specs.KitAnswers.{accessed, delivered};
    ghost use Rattle.kit.specs.OpenedCount.{opened_after};
    ghost use Rattle.kit.specs.Runs.{GoesOn, opened_count};

    /// A kit just started.
    pub(crate) fn new(cluster: Cluster, link: L) -> Running<L>
        requires { KitForm (kit_of cluster) }
        ensures cluster { result.cluster ≡ cluster }
        ensures link { result.link ≡ link }
        ensures opened { result.opened ≡ 0 }
    {
        Running {
            cluster,
            link,
            out: Outbox::new(),
            opened: 0,
        }
    }

    /// A board loads the word at an address, or opens the load.
    #[tactic(auto, using(std::proofs::lemmas::List::nil_from_length))]
    pub fn load(&mut self, board: u8, address: u32) -> Result<AccessAnswer, Fault>
        ensures { GoesOn L.Link.limit L.waiting L.Choice.joins L.Choice.chooses (Load board address) (accessed result) self.old self.new }
    {
        self.cluster.ask_access(board, address, &self.link)?;
        let answer = self.cluster.load(board, address, &mut self.out);
        self.out.send(&mut self.link)?;
        self.count(answer);
        Ok(answer)
    }

    /// A board stores a word at an address, or opens the store.
    #[tactic(auto, using(std::proofs::lemmas::List::nil_from_length))]
    pub fn store(&mut self, board: u8, address: u32, word: u32) -> Result<AccessAnswer, Fault>
        ensures { GoesOn L.Link.limit L.waiting L.Choice.joins L.Choice.chooses (Store board address word) (accessed result) self.old self.new }
    {
        self.cluster.ask_access(board, address, &self.link)?;
        let answer = self.cluster.store(board, address, word, &mut self.out);
        self.out.send(&mut self.link)?;
        self.count(answer);
        Ok(answer)
    }

    /// One of the messages that wait, of the link's choice, arrives at its board. Where none waits the delivery is quiet, and answers `None`.
    #[tactic(auto, using(std::proofs::lemmas::List::nil_from_length))]
    pub fn deliver(&mut self, pick: u16) -> Result<Option<Arrival>, Fault>
        ensures { GoesOn L.Link.limit L.waiting L.Choice.joins L.Choice.chooses (Deliver pick) (delivered result) self.old self.new }
    {
        let Some(message) = self.link.take(pick) else {
            return Ok(None);
        };
        self.cluster.ask_arrival(&message, &self.link)?;
        let arrival = self.cluster.arrive(&message, &mut self.out);
        self.out.send(&mut self.link)?;
        Ok(Some(arrival))
    }

    /// Carries out a call.
    pub fn call(&mut self, call: Call) -> Result<Answer, Fault>
        ensures { GoesOn L.Link.limit L.waiting L.Choice.joins L.Choice.chooses call result self.old self.new }
    {
        match call {
            Call::Load { board, address } => self.load(board, address).map(Answer::Accessed),
            Call::Store {
                board,
                address,
                word,
            } => self.store(board, address, word).map(Answer::Accessed),
            Call::Deliver { pick } => match self.deliver(pick)? {
                Some(arrival) => Ok(Answer::Arrived(arrival)),
                None => Ok(Answer::Quiet),
            },
        }
    }

    /// How many accesses were opened since the kit was started. The count stops at the largest.
    pub fn opened(&self) -> u32
        ensures { result ≡ opened_count self.now }
    {
        self.opened
    }

    /// Counts an access that opened.
    fn count(&mut self, answer: AccessAnswer)
        ensures cluster { self.new.cluster ≡ self.old.cluster }
        ensures link { self.new.link ≡ self.old.link }
        ensures out { self.new.out ≡ self.old.out }
        ensures opened { self.new.opened ≡ opened_after self.old.opened (Ok (Accessed answer)) }
    {
        match answer {
            AccessAnswer::Answered { .. } => {}
            AccessAnswer::Opened => self.opened = self.opened.saturating_add(1),
        }
    }
}
