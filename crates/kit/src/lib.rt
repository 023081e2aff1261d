#![tactic(auto)]

pub mod cluster;
pub mod laws;
pub mod loading;
mod node;
pub mod play;
pub mod running;
