ghost use Rattle.std.specs.Prelude.{◌≡◌, ◌+◌, ◌^◌, ◌<◌, ◌≤◌, ◌++◌, length, take, MatchResult};
ghost use Rattle.std.specs.List.{flat_map, AllByRecursion};
ghost use Rattle.wire.specs.BoardSets.{marks};
ghost use Rattle.wire.specs.Questions.{refusal, first_no};
ghost use Rattle.records.specs.Forms.{page_limit};
ghost use Rattle.records.specs.Laws.{Read, Written};
ghost use Rattle.records.specs.Layouts.{record_length, head_of, writing_questions};
ghost use Rattle.records.specs.Numbers.{low_first};

use crate::form::ask_form;
use crate::layout::{RECORD_LENGTH, word_place};
use wire::fault::Fault;
use wire::message::Message;

/// Writes bytes from `place` on, behind what was written before.
fn put(out: &mut [u8; RECORD_LENGTH], place: usize, bytes: &[u8])
    requires { place + length bytes.now ≤ record_length }
    ensures { take (place + length bytes.now) out.new ≡ take place out.old ++ bytes.now }
{
    out[place..place + bytes.len()].copy_from_slice(bytes);
}

/// Writes what stands before the words.
fn put_head(message: &Message, out: &mut [u8; RECORD_LENGTH])
    requires { message.now.page < page_limit }
    ensures head { take 16 out.new ≡ head_of message.now }
    ensures boards { length (marks message.now.copies) ≡ 16 }
{
    put(out, 0, &[u8::from(message.kind), message.page as u8]);
    let parties = [message.from, message.to, message.asker, message.hops];
    put(out, 2, &parties);
    put(out, 6, &message.copies.to_bits().to_le_bytes());
    put(out, 8, &[0; 4]);
    put(out, 12, &[0; 4]);
}

/// Writes the words behind the head.
fn put_words(words: &[u32; 16], out: &mut [u8; RECORD_LENGTH])
    ensures bytes { out.new ≡ take 16 out.old ++ flat_map (low_first 4) words.now }
    ensures wide { AllByRecursion (λ w. w < 2 ^ 32) words.now }
{
    for (i, word) in words.iter().enumerate() {
        put(out, word_place(i), &word.to_le_bytes());
    }
}

/// Writes the record of a message into a buffer of its length.
// This is no conversion: the buffer is the caller's, in fixed memory.
pub fn write_record(message: &Message, out: &mut [u8]) -> Result<(), Fault>
    ensures refused { refusal result ≡ first_no (writing_questions (length out.old) message.now) }
    ensures written { MatchResult result
        (λ _. Written message.now out.new × Read out.new message.now)
        (λ _. out.new ≡ out.old) }
{
    let out: &mut [u8; RECORD_LENGTH] = out.as_mut_array().ok_or(Fault::WrongLength)?;
    ask_form(message)?;
    put_head(message, out);
    put_words(&message.words, out);
    Ok(())
}
