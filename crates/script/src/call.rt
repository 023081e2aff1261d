ghost use Rattle.std.specs.Prelude.{◌≡◌};
ghost use Rattle.std.specs.Option.{ok_or};
ghost use Rattle.script.specs.Records.{link_number, link_of};
ghost use Rattle.wire.specs.declared.fault.Fault.TheVariants.{BadForm};

use memory::call::Call as KitCall;
use wire::fault::Fault;

/// The links that a script can name, with their numbers in scripts and listings.
#[derive(Clone, Copy, PartialEq, Eq, Debug)]
pub enum LinkKind {
    Queue = 0,
    Pool = 1,
}

impl From<LinkKind> for u32 {
    ghost from_gives = { λ link n. n ≡ link_number link };

    fn from(link: LinkKind) -> u32 {
        link as u32
    }
}

impl TryFrom<u32> for LinkKind {
    type Error = Fault;

    ghost try_from_gives = { λ n r. r ≡ ok_or (link_of n) BadForm };

    fn try_from(number: u32) -> Result<LinkKind, Fault> {
        match number {
            0 => Ok(LinkKind::Queue),
            1 => Ok(LinkKind::Pool),
            _ => Err(Fault::BadForm),
        }
    }
}

/// The kit that a script asks for: how many boards and pages, and over which link.
#[derive(Clone, Copy)]
pub struct KitPlan {
    pub boards: u8,
    pub pages: u32,
    pub link: LinkKind,
}

/// What a record of a script asks for.
// An address and its word are a key and its value, and need no struct of their own.
#[derive(Clone, Copy)]
pub enum Call {
    Kit(KitPlan),
    Place { address: u32, word: u32 },
    /// A call on the running kit, which starts the kit where it is loading.
    Run(KitCall),
}
