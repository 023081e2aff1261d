ghost use Rattle.std.specs.Prelude.{◌≡◌, ◌+◌, ◌*◌, ◌^◌, ◌<◌, length, if◌then◌else◌};
ghost use Rattle.wire.specs.BoardBits.{bit, set_bits, set_of_bits};
ghost use Rattle.wire.specs.BoardSets.{marks};

use super::BoardSet;
use std::array;

/// The number with one bit more, below the others.
fn with_lowest(bits: u16, lowest: bool) -> u16
    requires { bits < 2 ^ 15 }
    ensures { result ≡ (if lowest then 1 else 0) + 2 * bits }
{
    u16::from(lowest) + 2 * bits
}

/// Is bit `i` set?
fn has_bit(bits: u16, i: usize) -> bool
    requires { i < 16 }
    ensures { result ≡ bit bits i }
{
    (bits >> i) % 2 == 1
}

impl BoardSet {
    /// The set as a number: bit i for board i.
    // Named after its bits, as the library's `to_bits` of floats: `u16::from(set)` would not say which number of a set it is.
    pub fn to_bits(&self) -> u16
        ensures bits { result ≡ set_bits self.now }
        ensures sixteen { length (marks self.now) ≡ 16 }
    {
        let mut bits = 0u16;
        for member in self.members.iter().rev() {
            bits = with_lowest(bits, *member);
        }
        bits
    }

    /// The set that a number is of.
    // Named after the bits too.
    pub fn from_bits(bits: u16) -> BoardSet
        ensures { result ≡ set_of_bits bits }
    {
        BoardSet {
            members: array::from_fn(|i| has_bit(bits, i)),
        }
    }
}
