ghost use Rattle.std.specs.Prelude.{◌≡◌};
ghost use Rattle.board.specs.Addresses.{page_of, place_of};

/// How many words a page has.
const PAGE_WORDS: u32 = 16;

/// The page of an address.
pub fn page_of(address: u32) -> u32
    ensures { result ≡ page_of address }
{
    address / PAGE_WORDS
}

/// The place of an address in its page.
pub fn place_of(address: u32) -> usize
    ensures { result ≡ place_of address }
{
    (address % PAGE_WORDS) as usize
}
