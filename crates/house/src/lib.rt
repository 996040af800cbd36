// The house: the book and the orders of its members, and the calls that clients make.
#![tactic(auto)]

pub mod calls;
pub mod house;
