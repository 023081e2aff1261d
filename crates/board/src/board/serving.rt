ghost use Rattle.std.specs.Prelude.{◌≡◌, ◌+◌, ◌<◌, ◌≤◌, [], ◌∷◌, ◌++◌, length};
ghost use Rattle.board.specs.Boards.{state_of};
ghost use Rattle.board.specs.Outboxes.{posts, outbox_room};
ghost use Rattle.board.specs.Steps.{request_in, with_waiting};
ghost use Rattle.board.specs.Serving.{Serves, shared, granted, passed_on, served, entry_after, posts_for};

use super::Board;
use crate::entry::{Access, PageEntry};
use crate::grant::GrantInHand;
use crate::outbox::Outbox;
use crate::request::{AccessKind, Request};
use wire::message::{Kind, MOST_HOPS, Message};

impl Board {
    /// Serves a request: the owner of the page answers it, any other board passes it on.
    pub(super) fn serve(&self, page: u32, entry: &mut PageEntry, request: Request, out: &mut Outbox)
        requires { length (posts out.old) < outbox_room }
        ensures { Serves (served (state_of self.now).number page entry.old request) (posts out.old) entry.new (posts out.new) }
    {
        if entry.hint != self.number {
            self.pass_on(page, entry, request, out);
            return;
        }
        match request.kind {
            AccessKind::Load => self.share(page, entry, request, out),
            AccessKind::Store => self.grant(page, entry, request, out),
        }
    }

    /// The asker joins the copy set, and gets a copy.
    fn share(&self, page: u32, entry: &mut PageEntry, request: Request, out: &mut Outbox)
        requires { length (posts out.old) < outbox_room }
        ensures { Serves (shared (state_of self.now).number page entry.old request) (posts out.old) entry.new (posts out.new) }
    {
        entry.copies.insert(request.asker);
        entry.access = Access::Read;
        out.add(Message {
            kind: Kind::Copy,
            page,
            from: self.number,
            to: request.asker,
            asker: request.asker,
            hops: request.hops,
            words: entry.words,
            ..Message::BLANK
        });
    }

    /// Ownership goes to the asker. Where there is no room to post the grant, it is put back.
    fn grant(&self, page: u32, entry: &mut PageEntry, request: Request, out: &mut Outbox)
        ensures posted { length (posts out.old) < outbox_room → Serves (granted (state_of self.now).number page entry.old request) (posts out.old) entry.new (posts out.new) }
        ensures put_back { outbox_room ≤ length (posts out.old) → (entry.new ≡ entry.old) × (out.new ≡ out.old) }
    {
        match GrantInHand::take(page, entry, request).post(self.number, out) {
            Ok(()) => {}
            Err(grant) => grant.put_back(entry),
        }
    }

    /// The request goes to the hint, with hops one more, and from now on the hint is the asker.
    fn pass_on(&self, page: u32, entry: &mut PageEntry, request: Request, out: &mut Outbox)
        requires { length (posts out.old) < outbox_room }
        ensures { Serves (passed_on (state_of self.now).number page entry.old request) (posts out.old) entry.new (posts out.new) }
    {
        out.add(Message {
            kind: request.kind.asks_by(),
            page,
            from: self.number,
            to: entry.hint,
            asker: request.asker,
            hops: request.hops.saturating_add(1).min(MOST_HOPS),
            ..Message::BLANK
        });
        entry.hint = request.asker;
    }

    /// Serves the requests that wait, in order of arrival.
    pub(super) fn serve_waiting(&mut self, page: u32, entry: &mut PageEntry, out: &mut Outbox)
        requires { length (posts out.old) + length (state_of self.old).waiting ≤ outbox_room }
        ensures entry { entry.new ≡ entry_after (state_of self.old).number page entry.old (state_of self.old).waiting }
        ensures posts { posts out.new ≡ posts out.old ++ posts_for (state_of self.old).number page entry.old (state_of self.old).waiting }
        ensures state { state_of self.new ≡ record (state_of self.old) { waiting = [] } }
    {
        while let Some(request) = self.waiting.take_first() {
            self.serve(page, entry, request, out);
        }
    }

    /// Serves the request that a message carries.
    pub(super) fn serve_message(&self, message: &Message, entry: &mut PageEntry, out: &mut Outbox)
        requires { posts out.old ≡ [] }
        ensures { Serves (served (state_of self.now).number message.now.page entry.old (request_in message.now)) [] entry.new (posts out.new) }
    {
        self.serve(message.page, entry, Request::in_message(message), out);
    }

    /// The request that a message carries joins those that wait.
    pub(super) fn wait(&mut self, message: &Message)
        requires { length (state_of self.old).waiting < 15 }
        ensures { state_of self.new ≡ with_waiting (state_of self.old) (request_in message.now) }
    {
        self.waiting.join(Request::in_message(message));
    }
}
