ghost use Rattle.std.specs.Prelude.{◌≡◌, [], length, IfOk, IfNone};
ghost use Rattle.std.proofs.Common.{rules};

use crate::call::LinkKind;
use wire::choice::Choice;
use wire::fault::Fault;
use wire::link::Link;
use wire::message::Message;
use wire::pool::Pool;
use wire::queue::Queue;

/// The link that a record named.
#[derive(Drop)]
pub enum NamedLink {
    Queue(Queue),
    Pool(Pool),
}

impl NamedLink {
    ghost use Rattle.wire.specs.Links.{limit_questions};
    ghost use Rattle.wire.specs.Questions.{refusal, first_no};
    ghost use Rattle.script.specs.NamedLinks.{kind_of, limit_of, row_of};

    /// An empty link on which `limit` messages may wait.
    pub fn new(kind: LinkKind, limit: u16) -> Result<NamedLink, Fault>
        ensures refused { refusal result ≡ first_no (limit_questions limit) }
        ensures made { IfOk result (λ s. (kind_of s ≡ kind) × (limit_of s ≡ limit) × (row_of s ≡ [])) }
    {
        match kind {
            LinkKind::Queue => Queue::new(limit).map(NamedLink::Queue),
            LinkKind::Pool => Pool::new(limit).map(NamedLink::Pool),
        }
    }
}

impl Choice for NamedLink {
    ghost use Rattle.wire.specs.Links.{Joins, Chosen};
    ghost use Rattle.script.specs.Choosing.{place_of};
    ghost use Rattle.script.specs.NamedLinks.{kind_of, row_of};

    ghost joins = { λ s message r after. Joins message r (row_of s) (row_of after) × (kind_of after ≡ kind_of s) };

    ghost chooses = { λ s pick r after.
        Chosen (place_of (kind_of s) pick (length (row_of s))) r (row_of s) (row_of after)
        × (kind_of after ≡ kind_of s) × IfNone r (after ≡ s) };
}

impl Link for NamedLink {
    ghost use Rattle.wire.specs.Bags.{bag};
    ghost use Rattle.script.specs.NamedLinks.{limit_of, row_of};

    ghost limit = { λ s. limit_of s };

    ghost waiting = { λ s. bag (row_of s) };

    ghost bound = { Prim.search rules };

    fn post(&mut self, message: Message) -> Result<(), Fault> {
        match self {
            NamedLink::Queue(queue) => queue.post(message),
            NamedLink::Pool(pool) => pool.post(message),
        }
    }

    fn take(&mut self, pick: u16) -> Option<Message> {
        match self {
            NamedLink::Queue(queue) => queue.take(pick),
            NamedLink::Pool(pool) => pool.take(pick),
        }
    }

    fn count(&self) -> u16 {
        match self {
            NamedLink::Queue(queue) => queue.count(),
            NamedLink::Pool(pool) => pool.count(),
        }
    }

    fn limit(&self) -> u16 {
        match self {
            NamedLink::Queue(queue) => queue.limit(),
            NamedLink::Pool(pool) => pool.limit(),
        }
    }
}
