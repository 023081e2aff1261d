ghost use Rattle.std.specs.Prelude.{◌≡◌, ◌<◌, [], ◌∷◌, length, is_some, IfOk, IfSome, Some, ok_or};
ghost use Rattle.wire.specs.Faults.{number};
ghost use Rattle.wire.specs.Questions.{refusal, first_no};
ghost use Rattle.script.specs.Digits.{numeral};
ghost use Rattle.script.specs.Records.{call_of, form, framed, numbers_in};
ghost use Rattle.wire.specs.declared.fault.Fault.TheVariants.{BadForm};

use crate::call::{Call, KitPlan};
use crate::digits::{Base, read_number};
use crate::numbers::Numbers;
use memory::call::Call as KitCall;
use wire::fault::Fault;

/// How many characters a record has.
pub(crate) const RECORD_LENGTH: usize = 16;

/// Are the last two characters a space and a newline?
fn is_framed(text: &[u8; RECORD_LENGTH]) -> bool
    ensures { result ≡ framed text.now }
{
    text[14] == b' ' && text[15] == b'\n'
}

/// The number that eight digits write. Most are zeros, which are not read one by one.
fn read_eight(text: &[u8]) -> Option<u32>
    requires { length text.now ≡ 8 }
    ensures { result ≡ numeral 16 text.now }
{
    if text == b"00000000".as_slice() {
        return Some(0);
    }
    read_number(Base::Sixteen, text)
}

/// The numbers that the digits of a record write.
fn read_numbers(text: &[u8; RECORD_LENGTH]) -> Option<Numbers>
    ensures value { result ≡ numbers_in text.now }
    ensures two { IfSome result (λ n. n.two < 100) }
    ensures three { IfSome result (λ n. n.three < 1000) }
{
    Some(Numbers {
        two: read_number(Base::Ten, &text[1..3])?,
        three: read_number(Base::Ten, &text[3..6])?,
        eight: read_eight(&text[6..14])?,
    })
}

/// The call that a letter makes of its numbers. Those that it has no use for are zero.
// The letter stands alone, as a `char` that is matched against `char`s: so the arms read as the rules of a script do.
fn name_call(letter: char, numbers: Numbers) -> Result<Call, Fault>
    requires two { numbers.two < 100 }
    requires three { numbers.three < 1000 }
    ensures { result ≡ ok_or (call_of letter numbers) BadForm }
{
    let Numbers { two, three, eight } = numbers;
    let board = two as u8;
    match letter {
        'K' => Ok(Call::Kit(KitPlan {
            boards: board,
            pages: three,
            link: eight.try_into()?,
        })),
        'P' if two == 0 => Ok(Call::Place {
            address: three,
            word: eight,
        }),
        'L' if eight == 0 => Ok(Call::Run(KitCall::Load {
            board,
            address: three,
        })),
        'S' => Ok(Call::Run(KitCall::Store {
            board,
            address: three,
            word: eight,
        })),
        'D' if two == 0 && eight == 0 => Ok(Call::Run(KitCall::Deliver { pick: three as u16 })),
        _ => Err(Fault::BadForm),
    }
}

/// The call that a record asks for. One of another length, as a last record cut short, breaks the form.
// A text is read, as `read_record` reads the bytes of a message: `Call::try_from` would say no more and name it less.
pub fn read_call(text: &[u8]) -> Result<Call, Fault>
    ensures refused { refusal result ≡ first_no ((number BadForm, is_some (form text.now)) ∷ []) }
    ensures call { IfOk result (λ c. form text.now ≡ Some c) }
{
    let text: &[u8; RECORD_LENGTH] = text.as_array().ok_or(Fault::BadForm)?;
    if !is_framed(text) {
        return Err(Fault::BadForm);
    }
    let numbers = read_numbers(text).ok_or(Fault::BadForm)?;
    name_call(char::from(text[0]), numbers)
}
