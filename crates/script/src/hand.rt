ghost use Rattle.std.specs.Prelude.{◌≡◌, ◌≤◌, length};

use crate::input::read_some;
use crate::record::RECORD_LENGTH;
use std::io;
use std::io::{ErrorKind, Read};

/// How many characters of a script are read, and answered, at a time.
pub(crate) const ROOM: usize = 16384;

/// The characters that are read and not yet answered.
#[derive(Drop)]
pub(crate) struct Hand {
    chars: [u8; ROOM],
    len: usize,
    ghost room: { length chars ≡ 16384 },
    ghost inside: { len ≤ 16384 },
}

impl Hand {
    ghost use Rattle.std.specs.Prelude.{◌≢◌, ℕ, ◌-◌, ◌<◌, ◌%◌, ◌++◌, [], List, drop, IfOk, IfErr, OnErr};
    ghost use Rattle.std.specs.Io.KnownBytes.{Keeps, Consumes, IsAtEnd};
    ghost use Rattle.std.specs.IoError.{error_kind};
    ghost use Rattle.script.specs.Streams.{at_hand};

    /// Nothing is read yet.
    pub(crate) fn new() -> Hand
        ensures { at_hand result ≡ [] }
    {
        Hand {
            chars: [0; ROOM],
            len: 0,
        }
    }

    /// Reads once, behind what is at hand: how many characters. None come where the script ends.
    pub(crate) fn read<R: Read>(&mut self, input: &mut R) -> io::Result<usize>
        requires { length (at_hand self.old) < 16 }
        ensures chars { IfOk result (λ n. (chunk : List ℕ) × (length chunk ≡ n)
            × (at_hand self.new ≡ at_hand self.old ++ chunk)
            × Consumes (R.remaining input.old) (R.remaining input.new) chunk) }
        ensures end { IfOk result (λ n. n ≡ 0 → IsAtEnd (R.remaining input.new)) }
        ensures kept { OnErr result (Keeps (R.remaining input.old) (R.remaining input.new)) }
        ensures retried { IfErr result (λ e. error_kind e ≢ ErrorKind.Interrupted) }
    {
        let read = read_some(input, &mut self.chars[self.len..])?;
        self.len += read;
        Ok(read)
    }

    /// What is at hand.
    pub(crate) fn chars(&self) -> &[u8]
        ensures { result.now ≡ at_hand self.now }
    {
        &self.chars[..self.len]
    }

    /// How many of the characters at hand are to be answered, when so many were just read: those of whole records, and
    /// where none came, as the script has ended, all.
    pub(crate) fn answerable(&self, read: usize) -> usize
        ensures end { read ≡ 0 → result ≡ length (at_hand self.now) }
        ensures whole { 0 < read → result ≡ length (at_hand self.now) - length (at_hand self.now) % 16 }
        ensures inside { result ≤ length (at_hand self.now) }
    {
        if read == 0 {
            self.len
        } else {
            self.len - self.len % RECORD_LENGTH
        }
    }

    /// Lets go of the first characters.
    pub(crate) fn forget(&mut self, count: usize)
        requires { count ≤ length (at_hand self.old) }
        ensures { at_hand self.new ≡ drop count (at_hand self.old) }
    {
        self.chars.copy_within(count..self.len, 0);
        self.len -= count;
    }
}
