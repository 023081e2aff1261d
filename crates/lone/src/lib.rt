#![tactic(auto)]

pub mod laws;
pub mod lone_board;
pub mod size;
pub mod table;
