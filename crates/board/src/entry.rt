ghost use Rattle.std.specs.Prelude.{◌≡◌};
ghost use Rattle.board.specs.Entries.{start_entry};

use wire::board_set::BoardSet;

/// What a board may do with a page.
#[derive(Clone, Copy, PartialEq, Eq, Debug)]
pub enum Access {
    None,
    Read,
    Write,
}

/// A board's entry for one page. The hint is the board that probably owns the page: its own number where it does.
#[derive(Clone, Copy, PartialEq, Eq, Debug)]
pub struct PageEntry {
    pub access: Access,
    pub hint: u8,
    pub copies: BoardSet,
    pub words: [u32; 16],
}

impl PageEntry {
    /// The entry that board `number` starts with: board 0 owns every page.
    pub fn start(number: u8) -> PageEntry
        ensures { result ≡ start_entry number }
    {
        let access = if number == 0 {
            Access::Write
        } else {
            Access::None
        };
        PageEntry {
            access,
            hint: 0,
            copies: BoardSet::EMPTY,
            words: [0; 16],
        }
    }
}
