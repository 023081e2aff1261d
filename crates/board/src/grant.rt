ghost use Rattle.std.specs.Prelude.{◌≡◌, ◌<◌, ◌≤◌, [], ◌∷◌, ◌++◌, length, MatchResult};
ghost use Rattle.board.specs.Grants.{in_hand, grant_of};
ghost use Rattle.board.specs.Outboxes.{posts, outbox_room};
ghost use Rattle.board.specs.Serving.{given_up};

use crate::entry::{Access, PageEntry};
use crate::outbox::{OUTBOX_ROOM, Outbox};
use crate::request::Request;
use wire::board_set::BoardSet;
use wire::message::{Kind, Message};

/// Ownership that has left a page table. It is posted or put back: it has no `Drop`, so nothing else can become of it.
pub struct GrantInHand {
    page: u32,
    request: Request,
    entry: PageEntry,
}

impl GrantInHand {
    /// Takes ownership of a page out of its entry, for who asked for it.
    pub(crate) fn take(page: u32, entry: &mut PageEntry, request: Request) -> GrantInHand
        ensures grant { result ≡ in_hand page entry.old request }
        ensures entry { entry.new ≡ given_up entry.old request }
    {
        let grant = GrantInHand {
            page,
            request,
            entry: *entry,
        };
        entry.access = Access::None;
        entry.hint = request.asker;
        entry.copies = BoardSet::EMPTY;
        grant
    }

    /// Posts the grant, or hands it back where there is no room.
    pub(crate) fn post(self, from: u8, out: &mut Outbox) -> Result<(), GrantInHand>
        ensures { MatchResult result
            (λ _. (length (posts out.old) < outbox_room) × (posts out.new ≡ posts out.old ++ grant_of from self ∷ []))
            (λ grant. (outbox_room ≤ length (posts out.old)) × (grant ≡ self) × (out.new ≡ out.old)) }
    {
        if out.messages().len() >= usize::from(OUTBOX_ROOM) {
            return Err(self);
        }
        let GrantInHand {
            page,
            request,
            entry,
        } = self;
        let words = entry.words;
        let mut copies = entry.copies;
        copies.remove(request.asker);
        out.add(Message {
            kind: Kind::Grant,
            page,
            from,
            to: request.asker,
            asker: request.asker,
            hops: request.hops,
            copies,
            words,
        });
        Ok(())
    }

    /// Puts ownership back where it came from.
    pub(crate) fn put_back(self, entry: &mut PageEntry)
        ensures { entry.new ≡ self.entry }
    {
        let GrantInHand {
            page: _,
            request: _,
            entry: before,
        } = self;
        *entry = before;
    }
}
