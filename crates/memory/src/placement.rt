/// A word to be placed, with its address.
#[derive(Clone, Copy, PartialEq, Eq, Debug)]
pub struct Placement {
    pub address: u32,
    pub word: u32,
}
