#![tactic(auto)]

pub mod board_set;
pub mod cap;
pub mod choice;
pub mod fault;
pub mod gap;
pub mod link;
pub mod message;
pub mod order;
pub mod pool;
pub mod queue;
pub mod row;
