ghost use Rattle.std.specs.Prelude.{◌≡◌, ◌<◌, ◌≤◌, [], length, IfOk};
ghost use Rattle.std.proofs.Common.{rules};
ghost use Rattle.arrayvec.specs.ArrayVec.{array_vec_len};

use crate::choice::Choice;
use crate::fault::Fault;
use crate::gap::take_out;
use crate::link::{Link, ask_limit};
use crate::message::Message;
use crate::order::Order;
use arrayvec::ArrayVec;
use std::marker::PhantomData;

/// A link that keeps its messages in order of posting, with a limit on how many, and hands over the one that its order names.
#[derive(Drop)]
pub struct Row<O> {
    messages: ArrayVec<Message, 288>,
    limit: u16,
    order: PhantomData<O>,
    ghost within: { (array_vec_len messages ≤ limit) × (limit ≤ 288) },
}

impl<O> Row<O> {
    ghost use Rattle.std.specs.List.{insert};
    ghost use Rattle.wire.specs.Bags.{Adds, Empty};
    ghost use Rattle.wire.specs.Questions.{refusal, first_no};
    ghost use Rattle.wire.specs.Links.{limit_questions};
    ghost use Rattle.wire.specs.Rows.{row, held, row_limit};

    /// An empty row on which `limit` messages may wait.
    #[tactic(auto, using(crate::proofs::Bags::empty_bag))]
    pub fn new(limit: u16) -> Result<Row<O>, Fault>
        ensures refused { refusal result ≡ first_no (limit_questions limit) }
        ensures made { IfOk result (λ s. Empty (held s) × (row s ≡ []) × (row_limit s ≡ limit)) }
    {
        ask_limit(limit)?;
        Ok(Row {
            messages: ArrayVec::new(),
            limit,
            order: PhantomData,
        })
    }

    /// How many messages are in the row.
    fn len(&self) -> u16
        ensures { result ≡ length (row self.now) }
    {
        self.messages.len() as u16
    }

    /// Takes out the message at `place`.
    fn take_at(&mut self, place: usize) -> Message
        requires { place < length (row self.old) }
        ensures limit { row_limit self.new ≡ row_limit self.old }
        ensures chosen { row self.old ≡ insert (row self.new) place result }
        ensures left { Adds result (held self.new) (held self.old) }
    {
        let message = take_out(self.messages.as_mut_slice(), place);
        self.messages.pop();
        message
    }
}

impl<O: Order> Choice for Row<O> {
    ghost use Rattle.std.specs.Prelude.{IfNone};
    ghost use Rattle.wire.specs.Links.{Joins, Chosen};
    ghost use Rattle.wire.specs.Rows.{row};

    ghost joins = { λ s message r after. Joins message r (row s) (row after) };

    ghost chooses = { λ s pick r after.
        Chosen (O.place pick (length (row s))) r (row s) (row after) × IfNone r (after ≡ s) };
}

impl<O: Order> Link for Row<O> {
    ghost use Rattle.wire.specs.Rows.{held, row_limit};

    ghost limit = { λ s. row_limit s };

    ghost waiting = { λ s. held s };

    ghost bound = { Prim.search rules };

    #[tactic(auto, using(crate::proofs::Bags::size_bag, crate::proofs::Bags::adds_push))]
    fn post(&mut self, message: Message) -> Result<(), Fault> {
        if self.len() >= self.limit {
            return Err(Fault::LinkFull);
        }
        self.messages.push(message);
        Ok(())
    }

    #[tactic(auto, using(crate::proofs::Bags::size_bag, crate::proofs::Bags::empty_list, crate::proofs::Rows::inside_row))]
    fn take(&mut self, pick: u16) -> Option<Message> {
        if self.messages.is_empty() {
            return None;
        }
        let place = O::place(pick, self.len());
        Some(self.take_at(usize::from(place)))
    }

    #[tactic(auto, using(crate::proofs::Bags::size_bag))]
    fn count(&self) -> u16 {
        self.len()
    }

    fn limit(&self) -> u16 {
        self.limit
    }
}
