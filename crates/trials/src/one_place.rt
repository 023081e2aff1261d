ghost use Rattle.std.specs.Prelude.{◌≡◌, Some, None, MatchResult};
ghost use Rattle.wire.specs.Questions.{refusal};

use wire::fault::Fault;
use wire::link::Link;
use wire::message::Message;
use wire::queue::Queue;

/// What three posts and a take before the last of them answer.
#[derive(Drop)]
pub struct OnePlace {
    pub first: Result<(), Fault>,
    pub second: Result<(), Fault>,
    pub taken: Option<Message>,
    pub third: Result<(), Fault>,
}

/// A queue of limit 1 refuses the second post with 9, and after a take the next one passes.
pub fn queue_of_one(a: Message, b: Message, c: Message) -> Result<OnePlace, Fault>
    ensures { MatchResult result
        (λ p. (refusal p.first ≡ None) × (refusal p.second ≡ Some 9) × (p.taken ≡ Some a) × (refusal p.third ≡ None))
        (λ _. ⊥) }
{
    let mut link = Queue::new(1)?;
    let first = link.post(a);
    let second = link.post(b);
    let taken = link.take(0);
    let third = link.post(c);
    Ok(OnePlace {
        first,
        second,
        taken,
        third,
    })
}
