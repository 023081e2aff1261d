ghost use Rattle.board.specs.Laws.{OthersPassOn, OneOwner, ServedOrKept, StoreFinishes, HintStays, LoadsKeepCopies, StoresGiveCopiesBack};

/// What the rules of a board come to.
pub fn board_laws()
    ensures others { OthersPassOn }
    ensures owner { OneOwner }
    ensures requests { ServedOrKept }
    ensures stores { StoreFinishes }
    ensures hints { HintStays }
    ensures loads { LoadsKeepCopies }
    ensures copies { StoresGiveCopiesBack }
{}
