// Netting: what each account and each member gets out of entries between accounts, for any figure.
#![tactic(auto)]

pub mod figure;
pub mod members;
pub mod nets;
pub mod whole;
