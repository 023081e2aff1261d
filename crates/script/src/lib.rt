#![tactic(auto)]

pub mod answer;
mod bench;
pub mod call;
mod digits;
mod hand;
mod input;
pub mod laws;
pub mod line;
pub mod named_link;
pub mod numbers;
mod output;
pub mod play;
pub mod player;
pub mod record;
mod turn;
