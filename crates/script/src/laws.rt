ghost use Rattle.script.specs.Laws.{ReadBack, WrittenBack, Echoed, WholeLines};
ghost use Rattle.script.specs.Laws.{LinesAreAnswers, LinesAreListings, DeedsAgree};
ghost use Rattle.script.specs.Laws.{RecordsAreOneMemory, EveryCallIsTold};

/// Reading and writing numbers undo each other.
#[tactic(auto, using(crate::proofs::Undoing::read_back, crate::proofs::Undoing::written_back))]
pub fn numbers_undo()
    ensures read { ReadBack }
    ensures written { WrittenBack }
{}

/// An accepted K or P is echoed, and so is an access that opens; a listing is whole lines, at most one for each record.
pub fn listings_are_lines()
    ensures echoed { Echoed }
    ensures lines { WholeLines }
{}

/// A player's own walk over what it is given is the walk of outcomes: its lines are the answers, for a script its
/// listing, and it does the deeds that the outcomes say. What records do is one memory, whatever they are, and every
/// call of a kit is told in it.
pub fn players_play()
    ensures answers { LinesAreAnswers }
    ensures listings { LinesAreListings }
    ensures deeds { DeedsAgree }
    ensures one_memory { RecordsAreOneMemory }
    ensures told { EveryCallIsTold }
{}
