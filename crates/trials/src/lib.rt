#![tactic(auto)]

pub mod lottery;
pub mod one_place;
pub mod piles;
pub mod placed_word;
pub mod quiet;
#[cfg(test)]
mod tests;
