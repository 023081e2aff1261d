#![tactic(auto)]

pub mod address;
pub mod answer;
pub mod board;
pub mod entry;
pub mod grant;
pub mod laws;
pub mod outbox;
pub mod request;
pub mod stage;
pub mod waiting;
