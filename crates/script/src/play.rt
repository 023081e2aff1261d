ghost use Rattle.std.specs.Prelude.{◌≡◌, ◌≢◌, ℕ, ◌+◌, ◌≤◌, ◌++◌, List, length, take, drop};
ghost use Rattle.std.specs.Prelude.{IfSome, IfOk, IfErr, OnOk, OnErr};
ghost use Rattle.std.specs.Io.KnownBytes.{Appends};
ghost use Rattle.std.specs.IoError.{error_kind};
ghost use Rattle.script.specs.Players.{lines, next, next_all, play_of, reply, said};
ghost use Rattle.script.specs.Plays.{listing};
ghost use Rattle.script.specs.Records.{records};
ghost use Rattle.script.specs.Sessions.{SessionKeepsOneMemory};
ghost use Rattle.script.specs.Streams.{KeepsUp, at_hand, most_at_hand};

use crate::hand::{Hand, ROOM};
use crate::output::put_out;
use crate::player::Player;
use crate::record::RECORD_LENGTH;
use std::alloc::{AllocError, Global};
use std::io;
use std::io::{ErrorKind, Read, Write};

/// Puts a line, if there is one, behind the first `at` characters. How many are there then?
fn put_line(out: &mut [u8; ROOM], at: usize, line: Option<[u8; 16]>) -> usize
    requires { at + 16 ≤ most_at_hand }
    ensures chars { take result out.new ≡ take at out.old ++ said line }
    ensures room { result ≤ at + 16 }
{
    let Some(line) = line else {
        return at;
    };
    out[at..at + 16].copy_from_slice(&line);
    at + 16
}

/// Gives a player a record, and puts its line behind the first `at` characters. How many are there then?
fn play_record(player: &mut Player, text: &[u8], out: &mut [u8; ROOM], at: usize) -> usize
    requires { at + 16 ≤ most_at_hand }
    ensures chars { take result out.new ≡ take at out.old ++ said (reply (play_of player.old) text.now) }
    ensures play { play_of player.new ≡ next (play_of player.old) text.now }
    ensures room { result ≤ at + 16 }
{
    put_line(out, at, player.answer(text))
}

/// Gives a player the records of a script, one after another: how many characters answer them.
fn play_records(player: &mut Player, script: &[u8], out: &mut [u8; ROOM]) -> usize
    requires { length script.now ≤ most_at_hand }
    ensures lines { take result out.new ≡ lines (play_of player.old) (records script.now) }
    ensures play { play_of player.new ≡ next_all (play_of player.old) (records script.now) }
    ensures room { result ≤ most_at_hand }
{
    let mut at = 0;
    for text in script.chunks(RECORD_LENGTH) {
        at = play_record(player, text, out, at);
    }
    at
}

/// A session at the bench.
#[derive(Drop)]
struct Session {
    player: Player,
    hand: Hand,
    out: [u8; ROOM],
}

impl Session {
    /// Answers the first characters at hand, and lets go of them.
    fn answer<W: Write>(&mut self, count: usize, output: &mut W) -> io::Result<()>
        requires { count ≤ length (at_hand self.old.hand) }
        ensures lines { OnOk result (Appends (W.contents output.old) (W.contents output.new)
            (lines (play_of self.old.player) (records (take count (at_hand self.old.hand))))) }
        ensures begins { OnErr result ((written : ℕ) × Appends (W.contents output.old) (W.contents output.new)
            (take written (lines (play_of self.old.player) (records (take count (at_hand self.old.hand)))))) }
        ensures play { OnOk result
            (play_of self.new.player ≡ next_all (play_of self.old.player) (records (take count (at_hand self.old.hand)))) }
        ensures retried { IfErr result (λ e. error_kind e ≢ ErrorKind.Interrupted) }
        ensures hand { OnOk result (at_hand self.new.hand ≡ drop count (at_hand self.old.hand)) }
    {
        let first = &self.hand.chars()[..count];
        let written = play_records(&mut self.player, first, &mut self.out);
        put_out(output, &self.out[..written])?;
        self.hand.forget(count);
        Ok(())
    }
}

/// Plays a script as it is read, from a reader to a writer: each record is answered before more is read. An `Ok` says
/// that all was answered; where reading or writing fails, what is written is a beginning of the listing.
#[tactic(auto, using(crate::proofs::Sessions::session_keeps))]
pub fn play<R: Read, W: Write>(input: &mut R, output: &mut W) -> io::Result<()>
    ensures listing { OnOk result (IfSome (R.remaining input.old) (λ script.
        Appends (W.contents output.old) (W.contents output.new) (listing script))) }
    ensures begins { OnErr result (IfSome (R.remaining input.old) (λ script.
        (count : ℕ) × Appends (W.contents output.old) (W.contents output.new) (take count (listing script)))) }
    ensures keeps_up { KeepsUp (R.remaining input.old) (R.remaining input.new) (W.contents output.old) (W.contents output.new) }
    ensures retried { IfErr result (λ e. error_kind e ≢ ErrorKind.Interrupted) }
    ensures one_memory { (script : List ℕ) → SessionKeepsOneMemory script }
{
    let mut session = Session {
        player: Player::new(),
        hand: Hand::new(),
        out: [0; ROOM],
    };
    for _ in 0..u64::MAX {
        let read = session.hand.read(input)?;
        let count = session.hand.answerable(read);
        session.answer(count, output)?;
        if read == 0 || session.player.is_over() {
            return Ok(());
        }
    }
    Err(ErrorKind::TimedOut.into())
}

/// The listing of a script that is at hand, from its bytes to the bytes of the answers. Only memory for it can be wanting.
pub fn listing_of(heap: Global, script: &[u8]) -> Result<Vec<u8>, AllocError>
    ensures { IfOk result (λ v. v.items ≡ listing script.now) }
{
    let mut player = Player::new();
    let mut listing = Vec::new(heap);
    let mut out = [0; ROOM];
    for records in script.chunks(ROOM) {
        let written = play_records(&mut player, records, &mut out);
        listing.extend_from_slice(&out[..written])?;
    }
    Ok(listing)
}
