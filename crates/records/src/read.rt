ghost use Rattle.std.specs.Prelude.{◌≡◌, ◌+◌, ◌<◌, ◌≤◌, take, drop, MatchResult};
ghost use Rattle.wire.specs.Questions.{refusal, first_no};
ghost use Rattle.records.specs.Laws.{Read, Written, NoRecord};
ghost use Rattle.records.specs.Layouts.{record_length, fields_in, words_in, word_place, unused_zero, record_questions};
ghost use Rattle.records.specs.Numbers.{number_at};

use crate::form::ask_form;
use crate::layout::{RECORD_LENGTH, word_place};
use std::array::from_fn;
use wire::board_set::BoardSet;
use wire::fault::Fault;
use wire::message::{Kind, Message};

/// The bytes from `place` on, as many as are asked for.
fn bytes_at<const N: usize>(bytes: &[u8; RECORD_LENGTH], place: usize) -> [u8; N]
    requires { place + N ≤ record_length }
    ensures { result ≡ take N (drop place bytes.now) }
{
    *bytes[place..place + N].as_array().unwrap()
}

/// Word `i`.
#[tactic(auto, using(crate::proofs::Bytewise::word))]
fn word_at(bytes: &[u8; RECORD_LENGTH], i: usize) -> u32
    requires { i < 16 }
    ensures { result ≡ number_at bytes.now (word_place i) 4 }
{
    u32::from_le_bytes(bytes_at(bytes, word_place(i)))
}

/// The sixteen words.
fn words_in(bytes: &[u8; RECORD_LENGTH]) -> [u32; 16]
    ensures { result ≡ words_in bytes.now }
{
    from_fn(|i| word_at(bytes, i))
}

/// The message of a kind whose fields the record holds.
fn fields_in(kind: Kind, bytes: &[u8; RECORD_LENGTH]) -> Message
    ensures { result ≡ fields_in kind bytes.now }
{
    Message {
        kind,
        page: u32::from(bytes[1]),
        from: bytes[2],
        to: bytes[3],
        asker: bytes[4],
        hops: bytes[5],
        copies: BoardSet::from_bits(u16::from_le_bytes(bytes_at(bytes, 6))),
        words: words_in(bytes),
    }
}

/// Are the bytes that have no use zero?
fn unused_are_zero(bytes: &[u8; RECORD_LENGTH]) -> bool
    ensures { result ≡ unused_zero bytes.now }
{
    bytes[8..16] == [0; 8]
}

/// The message whose record the bytes are. Any other bytes are refused.
// This is no `TryFrom`: the crate below owns the type of messages.
pub fn read_record(bytes: &[u8]) -> Result<Message, Fault>
    ensures refused { refusal result ≡ first_no (record_questions bytes.now) }
    ensures read { MatchResult result
        (λ m. Read bytes.now m × Written m bytes.now)
        (λ _. NoRecord bytes.now) }
{
    let bytes: &[u8; RECORD_LENGTH] = bytes.as_array().ok_or(Fault::WrongLength)?;
    let kind = Kind::try_from(bytes[0])?;
    let message = fields_in(kind, bytes);
    ask_form(&message)?;
    if !unused_are_zero(bytes) {
        return Err(Fault::BrokenKindForm);
    }
    Ok(message)
}
