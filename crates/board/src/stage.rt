ghost use Rattle.std.specs.Prelude.{◌≡◌};
ghost use Rattle.board.specs.Stages.{is_on};

use crate::address::page_of;
use wire::board_set::BoardSet;

/// A load that has asked for its page. An invalidate for the page that comes meanwhile is deferred: its sender is kept.
#[derive(Clone, Copy, PartialEq, Eq, Debug)]
pub struct OpenLoad {
    pub address: u32,
    pub deferred: Option<u8>,
}

/// A store: where, and what.
#[derive(Clone, Copy, PartialEq, Eq, Debug)]
pub struct OpenStore {
    pub address: u32,
    pub word: u32,
}

/// A store that owns its page and awaits the acknowledgements of the boards that had copies. It keeps the hops of the grant.
#[derive(Clone, Copy, PartialEq, Eq, Debug)]
pub struct ClearingStore {
    pub store: OpenStore,
    pub awaited: BoardSet,
    pub hops: u8,
}

/// A board's open access, and how far it has come.
#[derive(Clone, Copy, PartialEq, Eq, Debug)]
pub enum Stage {
    /// No access is open.
    Idle,
    LoadAsked(OpenLoad),
    StoreAsked(OpenStore),
    Clearing(ClearingStore),
}

impl Stage {
    /// Is an access open on a page?
    pub(crate) fn is_on(self, page: u32) -> bool
        ensures { result ≡ is_on self page }
    {
        match self {
            Stage::Idle => false,
            Stage::LoadAsked(load) => page_of(load.address) == page,
            Stage::StoreAsked(store) => page_of(store.address) == page,
            Stage::Clearing(clearing) => page_of(clearing.store.address) == page,
        }
    }
}
