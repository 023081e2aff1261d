ghost use Rattle.std.specs.Prelude.{◌≢◌, ℕ, take, IfErr, OnOk};
ghost use Rattle.std.specs.Io.KnownBytes.{Keeps, Appends};
ghost use Rattle.std.specs.IoError.{error_kind};

use std::io;
use std::io::{ErrorKind, Write};

/// Hands on what is written. Where a signal interrupts that, it is done again.
#[tactic(auto, using(crate::proofs::Streams::kept_twice))]
fn flush<W: Write>(output: &mut W) -> io::Result<()>
    ensures kept { Keeps (W.contents output.old) (W.contents output.new) }
    ensures retried { IfErr result (λ e. error_kind e ≢ ErrorKind.Interrupted) }
{
    for _ in 0..u64::MAX {
        match output.flush() {
            Ok(()) => return Ok(()),
            Err(error) => {
                if error.kind() != ErrorKind::Interrupted {
                    return Err(error);
                }
            }
        }
    }
    Err(ErrorKind::TimedOut.into())
}

/// Writes all of some characters, and hands them on. Where that fails, the first of them may be written.
// `write_all` says nothing of what it has written where it fails.
#[tactic(auto, using(crate::proofs::Streams::put_none, crate::proofs::Streams::put_more, crate::proofs::Streams::put_all))]
pub(crate) fn put_out<W: Write>(output: &mut W, chars: &[u8]) -> io::Result<()>
    ensures all { OnOk result (Appends (W.contents output.old) (W.contents output.new) chars.now) }
    ensures retried { IfErr result (λ e. error_kind e ≢ ErrorKind.Interrupted) }
    ensures first { (count : ℕ) × Appends (W.contents output.old) (W.contents output.new) (take count chars.now) }
{
    let mut at = 0;
    for _ in 0..u64::MAX {
        if at == chars.len() {
            return flush(output);
        }
        match output.write(&chars[at..]) {
            Ok(0) => return Err(ErrorKind::WriteZero.into()),
            Ok(n) => at += n,
            Err(error) => {
                if error.kind() != ErrorKind::Interrupted {
                    return Err(error);
                }
            }
        }
    }
    Err(ErrorKind::TimedOut.into())
}
