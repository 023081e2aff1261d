#![tactic(auto)]

pub mod form;
pub mod laws;
pub mod layout;
pub mod read;
pub mod write;
