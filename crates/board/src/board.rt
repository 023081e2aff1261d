ghost use Rattle.std.specs.Prelude.{◌≡◌};
ghost use Rattle.board.specs.Boards.{state_of, start_state};
ghost use Rattle.board.specs.Stages.{is_idle};

use crate::request::Request;
use crate::stage::Stage;
use crate::waiting::Waiting;

mod accesses;
mod arriving;
mod expecting;
mod finishing;
mod invalidating;
mod serving;

/// A board's own state: its number, its open access, and the requests that wait for that to finish. Its pages stand in a page table.
#[derive(Clone, Copy)]
pub struct Board {
    number: u8,
    stage: Stage,
    waiting: Waiting,
}

impl Board {
    /// Board `number` as it starts: nothing is open, waiting or deferred.
    pub fn start(number: u8) -> Board
        ensures { state_of result ≡ start_state number }
    {
        Board {
            number,
            stage: Stage::Idle,
            waiting: Waiting::new(),
        }
    }

    pub fn number(&self) -> u8
        ensures { result ≡ (state_of self.now).number }
    {
        self.number
    }

    /// The open access, and how far it has come.
    pub fn stage(&self) -> Stage
        ensures { result ≡ (state_of self.now).stage }
    {
        self.stage
    }

    /// The requests that wait, the oldest first.
    pub fn waiting(&self) -> &[Request]
        ensures { result.now ≡ (state_of self.now).waiting }
    {
        self.waiting.requests()
    }

    /// Is no access open?
    pub fn is_idle(&self) -> bool
        ensures { result ≡ is_idle (state_of self.now).stage }
    {
        matches!(self.stage, Stage::Idle)
    }
}
