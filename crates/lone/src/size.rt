ghost use Rattle.std.specs.Prelude.{◌≤◌};

use wire::board_set::BoardSet;
use wire::fault::Fault;

/// How many boards and pages there are: 1 to 16 of each.
#[derive(Clone, Copy, PartialEq, Eq, Debug)]
pub struct Size {
    boards: u8,
    pages: u32,
    ghost boards_bounded: { (1 ≤ boards) × (boards ≤ 16) },
    ghost pages_bounded: { (1 ≤ pages) × (pages ≤ 16) },
}

impl Size {
    ghost use Rattle.std.specs.Prelude.{◌≡◌, ◌+◌, ◌*◌, IfOk, nat_lt};
    ghost use Rattle.wire.specs.BoardSets.{is_below};
    ghost use Rattle.wire.specs.Questions.{refusal, first_no};
    ghost use Rattle.lone.specs.Sizes.{size_boards, size_pages, size_questions, has_address};

    pub fn new(boards: u8, pages: u32) -> Result<Size, Fault>
        ensures refused { refusal result ≡ first_no (size_questions boards pages) }
        ensures made { IfOk result (λ s. (size_boards s ≡ boards) × (size_pages s ≡ pages)) }
    {
        if !(1..=16).contains(&boards) {
            return Err(Fault::BoardsOutOfRange);
        }
        if !(1..=16).contains(&pages) {
            return Err(Fault::PagesOutOfRange);
        }
        Ok(Size { boards, pages })
    }

    /// The lowest limit of a link that a kit of this size may stand on.
    pub fn least_limit(self) -> u16
        ensures { result ≡ size_boards self * size_boards self + 16 }
    {
        u16::from(self.boards) * u16::from(self.boards) + 16
    }

    /// Is there such an address?
    pub fn has_address(self, address: u32) -> bool
        ensures { result ≡ has_address (size_pages self) address }
    {
        address < 16 * self.pages
    }

    /// Is there such a board?
    pub fn has_board(self, board: u8) -> bool
        ensures { result ≡ nat_lt board (size_boards self) }
    {
        board < self.boards
    }

    /// Are there all boards of a set?
    pub fn has_boards(self, boards: &BoardSet) -> bool
        ensures { result ≡ is_below boards.now (size_boards self) }
    {
        boards.is_below(self.boards)
    }

    /// Is there such a page?
    pub fn has_page(self, page: u32) -> bool
        ensures { result ≡ nat_lt page (size_pages self) }
    {
        page < self.pages
    }
}
