ghost use Rattle.std.specs.Prelude.{◌≡◌, []};
ghost use Rattle.board.specs.Boards.{state_of};
ghost use Rattle.board.specs.Outboxes.{posts};
ghost use Rattle.board.specs.Steps.{Steps, finish_load, finish_store, take_ownership, count_acknowledgement};

use super::Board;
use crate::address::place_of;
use crate::answer::Finished;
use crate::entry::{Access, PageEntry};
use crate::outbox::Outbox;
use crate::request::AccessKind;
use crate::stage::{ClearingStore, OpenLoad, OpenStore, Stage};
use wire::board_set::BoardSet;
use wire::message::Message;

impl Board {
    /// A copy finishes the load. Then a deferred invalidation is done, and then the requests that wait are served.
    pub(super) fn finish_load(
        &mut self,
        load: OpenLoad,
        message: &Message,
        entry: &mut PageEntry,
        out: &mut Outbox,
    ) -> Option<Finished>
        requires { posts out.old ≡ [] }
        ensures { Steps (finish_load load (state_of self.old) entry.old message.now) (state_of self.new) entry.new (posts out.new) result }
    {
        entry.access = Access::Read;
        entry.hint = message.from;
        entry.words = message.words;
        self.give_back_deferred(message.page, load.deferred, entry, out);
        self.stage = Stage::Idle;
        self.serve_waiting(message.page, entry, out);
        Some(Finished {
            board: self.number,
            kind: AccessKind::Load,
            address: load.address,
            word: message.words[place_of(load.address)],
            hops: message.hops,
        })
    }

    /// A grant for a store: where copies are out, they are invalidated first; else the store finishes.
    pub(super) fn take_ownership(
        &mut self,
        store: OpenStore,
        message: &Message,
        entry: &mut PageEntry,
        out: &mut Outbox,
    ) -> Option<Finished>
        requires { posts out.old ≡ [] }
        ensures { Steps (take_ownership store (state_of self.old) entry.old message.now) (state_of self.new) entry.new (posts out.new) result }
    {
        entry.access = Access::Read;
        entry.hint = self.number;
        entry.copies = message.copies;
        entry.words = message.words;
        if message.copies.is_empty() {
            return self.finish_store(store, message.hops, message.page, entry, out);
        }
        self.stage = Stage::Clearing(ClearingStore {
            store,
            awaited: message.copies,
            hops: message.hops,
        });
        self.invalidate(message.page, message.copies, out);
        None
    }

    /// Ends the waiting for the sender of an acknowledgement. The last one finishes the store.
    pub(super) fn count_acknowledgement(
        &mut self,
        clearing: ClearingStore,
        message: &Message,
        entry: &mut PageEntry,
        out: &mut Outbox,
    ) -> Option<Finished>
        requires { posts out.old ≡ [] }
        ensures { Steps (count_acknowledgement clearing (state_of self.old) entry.old message.now) (state_of self.new) entry.new (posts out.new) result }
    {
        let mut awaited = clearing.awaited;
        awaited.remove(message.from);
        if awaited.is_empty() {
            return self.finish_store(clearing.store, clearing.hops, message.page, entry, out);
        }
        self.stage = Stage::Clearing(ClearingStore {
            awaited,
            ..clearing
        });
        None
    }

    /// The store finishes with access write, no copies out, and its word. Then the requests that wait are served.
    fn finish_store(
        &mut self,
        store: OpenStore,
        hops: u8,
        page: u32,
        entry: &mut PageEntry,
        out: &mut Outbox,
    ) -> Option<Finished>
        requires { posts out.old ≡ [] }
        ensures { Steps (finish_store store hops (state_of self.old) page entry.old) (state_of self.new) entry.new (posts out.new) result }
    {
        entry.access = Access::Write;
        entry.copies = BoardSet::EMPTY;
        entry.words[place_of(store.address)] = store.word;
        self.stage = Stage::Idle;
        self.serve_waiting(page, entry, out);
        Some(Finished {
            board: self.number,
            kind: AccessKind::Store,
            address: store.address,
            word: store.word,
            hops,
        })
    }
}
