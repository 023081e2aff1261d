ghost use Rattle.std.specs.Prelude.{◌≡◌, [], ◌∷◌};
ghost use Rattle.board.specs.Boards.{state_of, at_stage};
ghost use Rattle.board.specs.Outboxes.{posts};
ghost use Rattle.board.specs.Posts.{acknowledgement, invalidates};
ghost use Rattle.board.specs.Steps.{given_back, entry_deferred, posts_deferred};

use super::Board;
use crate::entry::{Access, PageEntry};
use crate::outbox::Outbox;
use crate::stage::{OpenLoad, Stage};
use wire::board_set::BoardSet;
use wire::message::{Kind, Message};

impl Board {
    /// Sends an invalidate to each member of a copy set, in rising order.
    #[tactic(auto, using(crate::proofs::Invalidating::one_more, crate::proofs::Invalidating::no_more))]
    pub(super) fn invalidate(&self, page: u32, copies: BoardSet, out: &mut Outbox)
        requires { posts out.old ≡ [] }
        ensures { posts out.new ≡ invalidates (state_of self.now).number page copies }
    {
        for board in 0..16 {
            if copies.contains(board) {
                out.add(Message {
                    kind: Kind::Invalidate,
                    page,
                    from: self.number,
                    to: board,
                    asker: self.number,
                    ..Message::BLANK
                });
            }
        }
    }

    /// Gives up the copy, and tells `to`. The hint stays.
    pub(super) fn give_back(&self, page: u32, to: u8, entry: &mut PageEntry, out: &mut Outbox)
        requires { posts out.old ≡ [] }
        ensures entry { entry.new ≡ given_back entry.old }
        ensures posts { posts out.new ≡ acknowledgement (state_of self.now).number page to ∷ [] }
    {
        entry.access = Access::None;
        out.add(Message {
            kind: Kind::Acknowledgement,
            page,
            from: self.number,
            to,
            asker: to,
            ..Message::BLANK
        });
    }

    /// Does the invalidation that was deferred, if one was.
    pub(super) fn give_back_deferred(
        &self,
        page: u32,
        deferred: Option<u8>,
        entry: &mut PageEntry,
        out: &mut Outbox,
    )
        requires { posts out.old ≡ [] }
        ensures entry { entry.new ≡ entry_deferred deferred entry.old }
        ensures posts { posts out.new ≡ posts_deferred (state_of self.now).number page deferred }
    {
        if let Some(to) = deferred {
            self.give_back(page, to, entry, out);
        }
    }

    /// Defers an invalidation until the open load finishes.
    pub(super) fn defer(&mut self, load: OpenLoad, sender: u8)
        ensures { state_of self.new ≡ at_stage (state_of self.old) (Stage.LoadAsked (record load { deferred = Some sender })) }
    {
        self.stage = Stage::LoadAsked(OpenLoad {
            deferred: Some(sender),
            ..load
        });
    }
}
