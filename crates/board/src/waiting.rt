ghost use Rattle.std.specs.Prelude.{◌≡◌, ◌<◌, ◌≤◌, [], ◌∷◌, ◌++◌, length, MatchOption};

use crate::request::Request;
use wire::gap::take_out;

/// The requests that wait at a board, in order of arrival: at most one of each other board.
#[derive(Clone, Copy)]
pub struct Waiting {
    // No heap, so no `Vec`; and `ArrayVec` is not `Copy`, which a board's state is.
    requests: [Request; 15],
    len: usize,
    ghost within: { (len ≤ 15) × (length requests ≡ 15) },
}

impl Waiting {
    ghost use Rattle.board.specs.Boards.{queue};
    ghost use Rattle.board.specs.Expected.{waits};

    /// No request waits.
    pub fn new() -> Waiting
        ensures { queue result ≡ [] }
    {
        Waiting {
            requests: [Request::BLANK; 15],
            len: 0,
        }
    }

    /// A request joins those that wait, behind the others.
    pub(crate) fn join(&mut self, request: Request)
        requires { length (queue self.old) < 15 }
        ensures { queue self.new ≡ queue self.old ++ request ∷ [] }
    {
        self.requests[self.len] = request;
        self.len += 1;
    }

    /// Takes out the oldest request.
    pub(crate) fn take_first(&mut self) -> Option<Request>
        ensures { MatchOption result
            ((queue self.old ≡ []) × (self.new ≡ self.old))
            (λ request. queue self.old ≡ request ∷ queue self.new) }
    {
        if self.len == 0 {
            return None;
        }
        // Copied, since the checker does not lend it in place: it stands behind a reference, beside a ghost field.
        let mut requests = self.requests;
        let request = take_out(&mut requests[..self.len], 0);
        self.requests = requests;
        self.len -= 1;
        Some(request)
    }

    /// The requests that wait, the oldest first.
    pub(crate) fn requests(&self) -> &[Request]
        ensures { result.now ≡ queue self.now }
    {
        &self.requests[..self.len]
    }

    /// Does a request of this asker wait?
    pub(crate) fn has_asker(&self, asker: u8) -> bool
        ensures { result ≡ waits asker (queue self.now) }
    {
        self.requests().iter().any(|request| request.asker == asker)
    }
}
