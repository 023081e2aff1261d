ghost use Rattle.std.specs.Prelude.{◌≡◌, [], ◌∷◌};
ghost use Rattle.board.specs.Boards.{state_of};
ghost use Rattle.board.specs.Openings.{Opens, load, written, owner_store, store};
ghost use Rattle.board.specs.Outboxes.{posts};
ghost use Rattle.board.specs.Posts.{own_request};

use super::Board;
use crate::address::{page_of, place_of};
use crate::answer::AccessAnswer;
use crate::entry::{Access, PageEntry};
use crate::outbox::Outbox;
use crate::request::AccessKind;
use crate::stage::{ClearingStore, OpenLoad, OpenStore, Stage};
use wire::message::{Kind, Message};

impl Board {
    /// Loads the word at an address, or opens the load. The entry is that of the address's page.
    pub fn load(&mut self, address: u32, entry: &PageEntry, out: &mut Outbox) -> AccessAnswer
        requires { posts out.old ≡ [] }
        ensures { Opens (load (state_of self.old) entry.now address) (state_of self.new) entry.now (posts out.new) result }
    {
        match entry.access {
            Access::None => {
                self.stage = Stage::LoadAsked(OpenLoad {
                    address,
                    deferred: None,
                });
                self.ask(AccessKind::Load, page_of(address), entry.hint, out);
                AccessAnswer::Opened
            }
            Access::Read | Access::Write => AccessAnswer::Answered {
                word: entry.words[place_of(address)],
            },
        }
    }

    /// Stores a word at an address, or opens the store. The entry is that of the address's page.
    pub fn store(
        &mut self,
        address: u32,
        word: u32,
        entry: &mut PageEntry,
        out: &mut Outbox,
    ) -> AccessAnswer
        requires { posts out.old ≡ [] }
        ensures { Opens (store (state_of self.old) entry.old address word) (state_of self.new) entry.new (posts out.new) result }
    {
        match entry.access {
            Access::Write => put(address, word, entry),
            Access::None | Access::Read if entry.hint == self.number => {
                self.store_as_owner(address, word, entry, out)
            }
            Access::None | Access::Read => {
                self.stage = Stage::StoreAsked(OpenStore { address, word });
                self.ask(AccessKind::Store, page_of(address), entry.hint, out);
                AccessAnswer::Opened
            }
        }
    }

    /// An owner's store: where copies are out, they are invalidated first.
    fn store_as_owner(
        &mut self,
        address: u32,
        word: u32,
        entry: &mut PageEntry,
        out: &mut Outbox,
    ) -> AccessAnswer
        requires { posts out.old ≡ [] }
        ensures { Opens (owner_store (state_of self.old) entry.old address word) (state_of self.new) entry.new (posts out.new) result }
    {
        if entry.copies.is_empty() {
            return put(address, word, entry);
        }
        self.stage = Stage::Clearing(ClearingStore {
            store: OpenStore { address, word },
            awaited: entry.copies,
            hops: 0,
        });
        self.invalidate(page_of(address), entry.copies, out);
        AccessAnswer::Opened
    }

    /// Asks for a page: a request goes to its hint.
    fn ask(&self, kind: AccessKind, page: u32, hint: u8, out: &mut Outbox)
        requires { posts out.old ≡ [] }
        ensures { posts out.new ≡ own_request kind (state_of self.now).number page hint ∷ [] }
    {
        out.add(Message {
            kind: kind.asks_by(),
            page,
            from: self.number,
            to: hint,
            asker: self.number,
            ..Message::BLANK
        });
    }
}

/// Puts a word into an entry that may be written.
fn put(address: u32, word: u32, entry: &mut PageEntry) -> AccessAnswer
    ensures entry { entry.new ≡ written entry.old address word }
    ensures answer { result ≡ AccessAnswer.Answered word }
{
    entry.access = Access::Write;
    entry.words[place_of(address)] = word;
    AccessAnswer::Answered { word }
}
