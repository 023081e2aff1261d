ghost use Rattle.std.specs.Prelude.{◌≡◌, true, length};
ghost use Rattle.board.specs.Boards.{state_of};
ghost use Rattle.lone.specs.Forms.{lone_form};
ghost use Rattle.lone.specs.Sizes.{size_boards, size_pages};

use crate::size::Size;
use crate::table::PageTable;
use board::board::Board;
use board::entry::PageEntry;
use board::request::Request;
use board::stage::Stage;
use wire::fault::Fault;

mod accesses;
mod arrivals;

/// One board with its page table, which may be the board of any kit, over a link that every call is given.
#[derive(Drop)]
pub struct LoneBoard {
    size: Size,
    state: Board,
    table: PageTable,
    ghost rows: { length table.entries ≡ 16 },
    ghost form: { lone_form (record {
      boards = size_boards size;
      pages = size_pages size;
      state = state_of state;
      table = table.entries;
    }) ≡ true },
}

impl LoneBoard {
    ghost use Rattle.std.specs.Prelude.{◌<◌, ◌≤◌, IfOk, MatchOption};
    ghost use Rattle.lone.specs.Tables.{entry_at};
    ghost use Rattle.wire.specs.Questions.{refusal, first_no};
    ghost use Rattle.lone.specs.LoneBoards.{lone_of};
    ghost use Rattle.lone.specs.Lones.{start_lone};
    ghost use Rattle.lone.specs.LoneQuestions.{lone_questions};

    /// Board `number` of a kit of `boards` boards and `pages` pages, as it starts.
    pub fn new(number: u8, boards: u8, pages: u32) -> Result<LoneBoard, Fault>
        ensures refused { refusal result ≡ first_no (lone_questions number boards pages) }
        ensures made { IfOk result (λ b. lone_of b ≡ start_lone number boards pages) }
    {
        let size = Size::new(boards, pages)?;
        if number >= boards {
            return Err(Fault::NoSuchBoard);
        }
        Ok(LoneBoard {
            size,
            state: Board::start(number),
            table: PageTable::start(number),
        })
    }

    /// The board's number.
    pub fn number(&self) -> u8
        ensures { result ≡ (lone_of self.now).state.number }
    {
        self.state.number()
    }

    /// The open access, and how far it has come.
    pub fn stage(&self) -> Stage
        ensures { result ≡ (lone_of self.now).state.stage }
    {
        self.state.stage()
    }

    /// The requests that wait, the oldest first.
    pub fn waiting(&self) -> &[Request]
        ensures { result.now ≡ (lone_of self.now).state.waiting }
    {
        self.state.waiting()
    }

    /// The entry for a page, where there is such a page.
    pub fn entry(&self, page: u32) -> Option<&PageEntry>
        ensures { MatchOption result
            ((lone_of self.now).pages ≤ page)
            (λ e. (page < (lone_of self.now).pages) × (e.now ≡ entry_at (lone_of self.now).table page)) }
    {
        if !self.size.has_page(page) {
            return None;
        }
        self.table.entries.get(page as usize)
    }
}
