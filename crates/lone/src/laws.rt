ghost use Rattle.lone.specs.Laws.{OwnersRead};

/// What the form of a lone board comes to.
#[tactic(auto, using(crate::proofs::Owners::owners_read))]
pub fn lone_laws()
    ensures { OwnersRead }
{}
