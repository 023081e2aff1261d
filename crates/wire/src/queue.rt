ghost use Rattle.std.specs.Prelude.{◌<◌};

use crate::order::Order;
use crate::row::Row;

/// A link that hands over the oldest message first.
pub type Queue = Row<OldestFirst>;

/// The message that was posted first.
pub struct OldestFirst;

impl Order for OldestFirst {
    ghost place = { λ pick waiting. 0 };

    ghost inside = { λ pick waiting some. some };

    fn place(_pick: u16, _waiting: u16) -> u16 {
        0
    }
}
