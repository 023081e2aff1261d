#![tactic(auto)]

pub mod answer;
pub mod call;
pub mod laws;
pub mod placement;
