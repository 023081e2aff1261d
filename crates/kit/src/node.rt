ghost use Rattle.std.specs.Prelude.{◌≡◌, ◌<◌};
ghost use Rattle.board.specs.Boards.{state_of, start_state};
ghost use Rattle.board.specs.Addresses.{page_of};
ghost use Rattle.lone.specs.Tables.{start_table, with_word_at};

use board::address::{page_of, place_of};
use board::board::Board;
use lone::table::PageTable;

/// A board of a kit: its own state beside its page table.
#[derive(Drop)]
pub(crate) struct Node {
    pub(crate) state: Board,
    pub(crate) table: PageTable,
}

impl Node {
    /// Board `number` as it starts: board 0 owns every page.
    pub(crate) fn start(number: u8) -> Node
        ensures state { state_of result.state ≡ start_state number }
        ensures table { result.table.entries ≡ start_table number }
    {
        Node {
            state: Board::start(number),
            table: PageTable::start(number),
        }
    }

    /// Puts a word into the page table.
    // An address and its word are a key and its value, and need no struct of their own.
    pub(crate) fn put_word(&mut self, address: u32, word: u32)
        requires { page_of address < 16 }
        ensures state { self.new.state ≡ self.old.state }
        ensures table { self.new.table.entries ≡ with_word_at self.old.table.entries address word }
    {
        self.table.entries[page_of(address) as usize].words[place_of(address)] = word;
    }
}
