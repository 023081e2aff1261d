ghost use Rattle.std.specs.Prelude.{◌≡◌, ℕ, ◌<◌, length};
ghost use Rattle.script.specs.Benches.{Ready, ready_prop};
ghost use Rattle.script.specs.Plays.{refused, ends};

use crate::bench::Bench;
use crate::line::Line;
use crate::record::RECORD_LENGTH;
use crate::turn::turn;

/// Does the play end with this record, where it is refused?
fn ends_if_refused(text: &[u8]) -> bool
    requires { 0 < length text.now }
    ensures { (n : ℕ) → result ≡ ends (refused n) text.now }
{
    text.len() < RECORD_LENGTH || text[0] == b'K'
}

/// Plays a script record by record. It reads and writes nothing, asks for no memory, and cannot fail.
#[derive(Drop)]
pub struct Player {
    bench: Bench,
    is_over: bool,
    ghost ready: { Ready bench } by { ready_prop bench },
}

impl Player {
    ghost use Rattle.std.specs.Prelude.{[]};
    ghost use Rattle.script.specs.Players.{Answers, HasPlayed, has_ended, play_of};

    /// A player that was given nothing yet.
    pub fn new() -> Player
        ensures { HasPlayed [] result }
    {
        Player {
            bench: Bench::NoKit,
            is_over: false,
        }
    }

    /// Answers a record by its line. A record has sixteen characters, and more break its form. One to fifteen are the
    /// last record of a script, cut short: it is refused, and the play is over, as it is after a refused K. No
    /// characters are no record, and where the play is over none is answered.
    pub fn answer(&mut self, text: &[u8]) -> Option<[u8; 16]>
        ensures { Answers text.now self.old result self.new }
    {
        if self.is_over || text.is_empty() {
            return None;
        }
        let line: Line = match turn(&mut self.bench, text) {
            Ok(answer) => answer.into(),
            Err(fault) => {
                self.is_over = ends_if_refused(text);
                fault.into()
            }
        };
        Some(line.text())
    }

    /// Is the play over? Then nothing more is answered.
    pub fn is_over(&self) -> bool
        ensures { result ≡ has_ended (play_of self.now) }
    {
        self.is_over
    }
}
