ghost use Rattle.std.specs.Prelude.{◌≡◌, []};
ghost use Rattle.board.specs.Boards.{state_of};
ghost use Rattle.board.specs.Outboxes.{posts};
ghost use Rattle.board.specs.Steps.{Steps, Arrives, RoomToWait, arrive};

use super::Board;
use crate::answer::{Arrival, Finished};
use crate::entry::PageEntry;
use crate::outbox::Outbox;
use crate::stage::Stage;
use wire::message::{Kind, Message};

impl Board {
    /// A message arrives that is expected. The entry is that of the message's page.
    pub fn arrive(&mut self, message: &Message, entry: &mut PageEntry, out: &mut Outbox) -> Arrival
        requires empty { posts out.old ≡ [] }
        requires room { RoomToWait message.now.kind (state_of self.old).waiting }
        ensures { Arrives (arrive (state_of self.old) entry.old message.now) message.now (state_of self.old).number (state_of self.new) entry.new (posts out.new) result }
    {
        let board = self.number;
        match self.take_in(message, entry, out) {
            Some(finished) => Arrival::Finished(finished),
            None => Arrival::Moved {
                board,
                kind: message.kind,
                hops: message.hops,
            },
        }
    }

    /// What a message does depends on the stage of the open access and on its kind together.
    fn take_in(
        &mut self,
        message: &Message,
        entry: &mut PageEntry,
        out: &mut Outbox,
    ) -> Option<Finished>
        requires empty { posts out.old ≡ [] }
        requires room { RoomToWait message.now.kind (state_of self.old).waiting }
        ensures { Steps (arrive (state_of self.old) entry.old message.now) (state_of self.new) entry.new (posts out.new) result }
    {
        match (self.stage, message.kind) {
            (stage, Kind::ReadRequest | Kind::WriteRequest) if stage.is_on(message.page) => {
                self.wait(message);
            }
            (_, Kind::ReadRequest | Kind::WriteRequest) => self.serve_message(message, entry, out),
            (Stage::LoadAsked(load), Kind::Copy) => {
                return self.finish_load(load, message, entry, out);
            }
            (Stage::StoreAsked(store), Kind::Grant) => {
                return self.take_ownership(store, message, entry, out);
            }
            (Stage::Clearing(clearing), Kind::Acknowledgement) => {
                return self.count_acknowledgement(clearing, message, entry, out);
            }
            (Stage::LoadAsked(load), Kind::Invalidate) if self.stage.is_on(message.page) => {
                self.defer(load, message.from);
            }
            (_, Kind::Invalidate) => self.give_back(message.page, message.from, entry, out),
            (_, Kind::Copy | Kind::Grant | Kind::Acknowledgement) => {}
        }
        None
    }
}
