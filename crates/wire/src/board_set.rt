ghost use Rattle.std.specs.Prelude.{◌≡◌};
ghost use Rattle.wire.specs.BoardSets.{has, is_empty, is_below, with_member, without_member, with_mark};

mod bits;

/// A set of boards, numbered 0 to 15.
#[derive(Clone, Copy, PartialEq, Eq, Debug)]
pub struct BoardSet {
    members: [bool; 16],
}

impl BoardSet {
    pub const EMPTY: BoardSet = BoardSet {
        members: [false; 16],
    };

    pub fn contains(&self, board: u8) -> bool
        ensures { result ≡ has self.now board }
    {
        self.members.get(usize::from(board)) == Some(&true)
    }

    #[tactic(auto, using(crate::proofs::BoardSets::none_of_any))]
    pub fn is_empty(&self) -> bool
        ensures { result ≡ is_empty self.now }
    {
        !self.members.contains(&true)
    }

    /// Have all members numbers below `boards`?
    #[tactic(auto, using(crate::proofs::BoardSets::none_past))]
    pub fn is_below(&self, boards: u8) -> bool
        ensures { result ≡ is_below self.now boards }
    {
        boards >= 16 || !self.members[usize::from(boards)..].contains(&true)
    }

    pub fn insert(&mut self, board: u8)
        ensures { self.new ≡ with_member self.old board }
    {
        self.mark(board, true);
    }

    pub fn remove(&mut self, board: u8)
        ensures { self.new ≡ without_member self.old board }
    {
        self.mark(board, false);
    }

    /// Makes a board a member or not, where there is such a board.
    #[tactic(auto, using(std::proofs::lemmas::List::set_past))]
    fn mark(&mut self, board: u8, member: bool)
        ensures { self.new ≡ with_mark self.old board member }
    {
        // By `get_mut` the proof didn't close: it does not learn what the array is after the write.
        if board < 16 {
            self.members[usize::from(board)] = member;
        }
    }
}
