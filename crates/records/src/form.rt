ghost use Rattle.std.specs.Prelude.{◌≡◌};
ghost use Rattle.wire.specs.Questions.{refusal, first_no};
ghost use Rattle.records.specs.Forms.{has_parties, in_range, all_zero, carries_nothing, kind_form, message_questions};

use wire::fault::Fault;
pub use wire::message::MOST_HOPS;
use wire::message::{Kind, Message};

/// Boards that a message names have numbers below this.
pub const BOARD_LIMIT: u8 = 16;

/// Pages that a message names have numbers below this.
pub const PAGE_LIMIT: u32 = 16;

/// Are from, to and asker boards, and from and to two?
fn has_parties(message: &Message) -> bool
    ensures { result ≡ has_parties message.now }
{
    message.from < BOARD_LIMIT
        && message.to < BOARD_LIMIT
        && message.asker < BOARD_LIMIT
        && message.from != message.to
}

/// Are page and hops in range?
fn is_in_range(message: &Message) -> bool
    ensures { result ≡ in_range message.now }
{
    message.page < PAGE_LIMIT && message.hops <= MOST_HOPS
}

fn has_no_words(message: &Message) -> bool
    ensures { result ≡ all_zero message.now.words }
{
    message.words == [0; 16]
}

/// Are there neither words nor a copy set?
fn carries_nothing(message: &Message) -> bool
    ensures { result ≡ carries_nothing message.now }
{
    has_no_words(message) && message.copies.is_empty()
}

/// Has the message the form of its kind?
fn has_kind_form(message: &Message) -> bool
    ensures { result ≡ kind_form message.now }
{
    match message.kind {
        Kind::ReadRequest | Kind::WriteRequest => carries_nothing(message),
        Kind::Copy => message.copies.is_empty() && message.asker == message.to,
        Kind::Grant => !message.copies.contains(message.to) && message.asker == message.to,
        Kind::Invalidate => {
            carries_nothing(message) && message.asker == message.from && message.hops == 0
        }
        Kind::Acknowledgement => {
            carries_nothing(message) && message.asker == message.to && message.hops == 0
        }
    }
}

/// Asks whether a message has its form. That its kind is one of the six is said by its type.
pub fn ask_form(message: &Message) -> Result<(), Fault>
    ensures { refusal result ≡ first_no (message_questions message.now) }
{
    if !has_parties(message) {
        return Err(Fault::BadParties);
    }
    if !is_in_range(message) {
        return Err(Fault::PageOrHopsTooLarge);
    }
    if !has_kind_form(message) {
        return Err(Fault::BrokenKindForm);
    }
    Ok(())
}
