// Postings: what a swap brings its accounts in a session, and the centavos that come of it.
#![tactic(auto)]

pub mod posting;
#[cfg(test)]
mod tests;
