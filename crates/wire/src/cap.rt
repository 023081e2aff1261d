ghost use Rattle.std.specs.Prelude.{◌≡◌, min, IfOk, MatchResult};
ghost use Rattle.std.proofs.Common.{rules};
ghost use Rattle.wire.specs.Caps.{cap_link, cap_most};

use crate::choice::Choice;
use crate::fault::Fault;
use crate::link::{Link, ask_limit};
use crate::message::Message;

/// A layer over a link, on which at most `most` messages wait. Its choice is the one made below.
#[derive(Drop)]
pub struct Cap<L> {
    below: L,
    most: u16,
}

impl<L: Link + Drop> Cap<L> {
    ghost use Rattle.wire.specs.Bags.{size};
    ghost use Rattle.wire.specs.Questions.{refusal, first_no};
    ghost use Rattle.wire.specs.Links.{layer_questions};

    /// A cap of `most` over an empty link.
    pub fn new(below: L, most: u16) -> Result<Cap<L>, Fault>
        ensures refused { refusal result ≡ first_no (layer_questions (size (L.waiting below)) most) }
        ensures made { IfOk result (λ c. (cap_link c ≡ below) × (cap_most c ≡ most)) }
    {
        if below.count() != 0 {
            return Err(Fault::LinkNotEmpty);
        }
        ask_limit(most)?;
        Ok(Cap { below, most })
    }
}

impl<L: Link> Choice for Cap<L> {
    ghost joins = { λ c message r after. MatchResult r
        (λ _. L.Choice.joins (cap_link c) message r (cap_link after) × (cap_most after ≡ cap_most c))
        (λ _. after ≡ c) };

    ghost chooses = { λ c pick r after.
        L.Choice.chooses (cap_link c) pick r (cap_link after) × (cap_most after ≡ cap_most c) };
}

impl<L: Link> Link for Cap<L> {
    ghost limit = { λ c. min (cap_most c) (L.Link.limit (cap_link c)) };

    ghost waiting = { λ c. L.Link.waiting (cap_link c) };

    ghost bound = { Prim.search rules };

    fn post(&mut self, message: Message) -> Result<(), Fault> {
        if self.below.count() >= self.most {
            return Err(Fault::LinkFull);
        }
        self.below.post(message)
    }

    fn take(&mut self, pick: u16) -> Option<Message> {
        self.below.take(pick)
    }

    fn count(&self) -> u16 {
        self.below.count()
    }

    fn limit(&self) -> u16 {
        self.most.min(self.below.limit())
    }
}
