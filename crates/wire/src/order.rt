ghost use Rattle.std.specs.Prelude.{◌≡◌, ℕ, ◌<◌};

/// In which order a row hands its messages over.
pub trait Order {
    // The place of the message taken, by the pick and by how many wait.
    ghost place: { ℕ → ℕ → ℕ };

    /// The place of the message taken where `waiting` of them wait.
    fn place(pick: u16, waiting: u16) -> u16
        requires { 0 < waiting }
        ensures { result ≡ place pick waiting };

    // Where any wait, it is the place of one of them.
    ghost inside: { (pick waiting : ℕ) → 0 < waiting → place pick waiting < waiting };
}
