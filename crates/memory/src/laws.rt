ghost use Rattle.memory.specs.Outcomes.{NothingIsStuck};
ghost use Rattle.memory.specs.Placements.{PlacedWords};
ghost use Rattle.memory.specs.Promises.{IsOneMemory, IsWilling, NeverRefuses};
ghost use Rattle.memory.specs.Witnesses.{BringsWhatAnotherStored, PassesOnOnce, NeedsAllDeliveries, PassedOnIsSharp, DeliveriesAreSharp};
ghost use Rattle.memory.specs.LeastBounds.{PassesThroughAll, AllAreNeeded, BoundsAreLeast};
ghost use Rattle.memory.specs.WrongHistories.{WrongHistoriesAreTold, RefusingIsOneMemory, RefusingIsNotWilling};

/// Over whatever link, whatever is called and in whatever order messages are delivered, the boards of a kit are one memory:
/// each answer is the array's, no request is passed on more than N - 2 times, 3N - 4 deliveries for each open access answer
/// them all, and nothing is refused but what the questions of a call refuse.
#[tactic(auto, using(crate::proofs::OneMemory::is_one_memory, crate::proofs::OneMemory::never_refuses))]
pub fn one_memory()
    ensures one_memory { IsOneMemory }
    ensures willing { IsWilling }
    ensures never_refuses { NeverRefuses }
{}

/// A kit begins with the words that were placed, else zeros.
#[tactic(auto, using(crate::proofs::Placing::placed_words))]
pub fn placed_words()
    ensures { PlacedWords }
{}

/// Every call has an outcome, so that there are histories to speak of.
#[tactic(auto, using(crate::proofs::Outcomes::nothing_is_stuck))]
pub fn nothing_is_stuck()
    ensures { NothingIsStuck }
{}

/// What a kit can do.
#[tactic(auto, using(crate::proofs::Witnesses::brings_what_another_stored, crate::proofs::Witnesses::passes_on_once, crate::proofs::Witnesses::needs_all_deliveries))]
pub fn witnesses()
    ensures brings { BringsWhatAnotherStored }
    ensures passes { PassesOnOnce }
    ensures deliveries { NeedsAllDeliveries }
{}

/// The bounds of the promise cannot be lowered.
#[tactic(auto, using(crate::proofs::LeastBounds::passes_through_all, crate::proofs::LeastBounds::all_are_needed, crate::proofs::LeastBounds::passed_on_is_sharp, crate::proofs::LeastBounds::deliveries_are_sharp))]
pub fn sharp_bounds()
    ensures passes { PassesThroughAll }
    ensures needs { AllAreNeeded }
    ensures least { BoundsAreLeast }
    ensures passed { PassedOnIsSharp }
    ensures deliveries { DeliveriesAreSharp }
{}

/// What one memory, and a willing kit, rule out.
#[tactic(auto, using(crate::proofs::Refusing::refusing_is_one_memory, crate::proofs::Refusing::refusing_is_not_willing))]
pub fn wrong_histories()
    ensures told { WrongHistoriesAreTold }
    ensures refusing { RefusingIsOneMemory }
    ensures unwilling { RefusingIsNotWilling }
{}
