// A swap: its terms, its state, the limits of its figures, and when it ends.
#![tactic(auto)]

pub mod ends;
pub mod limits;
pub mod state;
pub mod swap;
#[cfg(test)]
mod tests;
