ghost use Rattle.std.specs.Prelude.{◌≡◌};
ghost use Rattle.lone.specs.Tables.{start_table};

use board::entry::PageEntry;

/// The entries of one board, page by page.
#[derive(Clone, Copy, PartialEq, Eq, Debug)]
pub struct PageTable {
    pub entries: [PageEntry; 16],
}

impl PageTable {
    /// The page table that board `number` starts with.
    pub fn start(number: u8) -> PageTable
        ensures { result.entries ≡ start_table number }
    {
        PageTable {
            entries: [PageEntry::start(number); 16],
        }
    }
}
