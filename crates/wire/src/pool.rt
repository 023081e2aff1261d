ghost use Rattle.std.specs.Prelude.{◌%◌};
ghost use Rattle.std.proofs.Common.{mod-lt};

use crate::order::Order;
use crate::row::Row;

/// A link that hands over the message at place `pick` modulo how many wait, in order of posting.
pub type Pool = Row<ByPick>;

/// The message at place `pick` modulo how many wait.
pub struct ByPick;

impl Order for ByPick {
    ghost place = { λ pick waiting. pick % waiting };

    ghost inside = { λ pick waiting some. mod-lt pick {m = waiting} some };

    fn place(pick: u16, waiting: u16) -> u16 {
        pick % waiting
    }
}
