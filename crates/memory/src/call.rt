/// A call on a running kit.
#[derive(Clone, Copy, PartialEq, Eq, Debug)]
pub enum Call {
    /// A board loads the word at an address.
    Load { board: u8, address: u32 },
    /// A board stores a word at an address.
    Store { board: u8, address: u32, word: u32 },
    /// The link hands over one of the messages that wait on it; the pick may sway which.
    Deliver { pick: u16 },
}
