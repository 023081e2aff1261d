ghost use Rattle.std.specs.Prelude.{◌≡◌};
ghost use Rattle.board.specs.Boards.{state_of};
ghost use Rattle.board.specs.Expected.{expected, new_asker};

use super::Board;
use crate::address::page_of;
use crate::entry::PageEntry;
use crate::stage::Stage;
use wire::message::{Kind, Message};

impl Board {
    /// Does the board expect a message? The entry is that of the message's page.
    pub fn expects(&self, entry: &PageEntry, message: &Message) -> bool
        ensures { result ≡ expected (state_of self.now) entry.now message.now }
    {
        let is_owned = entry.hint == self.number;
        match (self.stage, message.kind) {
            (_, Kind::ReadRequest | Kind::WriteRequest) => self.has_new_asker(message),
            (Stage::LoadAsked(load), Kind::Copy) => page_of(load.address) == message.page,
            (Stage::StoreAsked(store), Kind::Grant) => page_of(store.address) == message.page,
            (Stage::LoadAsked(load), Kind::Invalidate) => {
                !is_owned && !(page_of(load.address) == message.page && load.deferred.is_some())
            }
            (_, Kind::Invalidate) => !is_owned,
            (Stage::Clearing(clearing), Kind::Acknowledgement) => {
                page_of(clearing.store.address) == message.page
                    && clearing.awaited.contains(message.from)
            }
            (_, Kind::Copy | Kind::Grant | Kind::Acknowledgement) => false,
        }
    }

    /// Is the asker of a request another board, with no request that waits?
    fn has_new_asker(&self, message: &Message) -> bool
        ensures { result ≡ new_asker (state_of self.now) message.now }
    {
        message.asker != self.number && !self.waiting.has_asker(message.asker)
    }
}
