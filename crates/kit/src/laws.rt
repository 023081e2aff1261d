ghost use Rattle.kit.specs.WorkedCases.{WorkedCases};

use wire::link::Link;

/// The worked cases, over any link.
pub fn worked_cases<L: Link>(_link: &L)
    ensures { WorkedCases L.Link.limit L.waiting L.Choice.joins L.Choice.chooses }
{}
