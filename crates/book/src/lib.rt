// The book: live swaps, acceptance, early ends and the diary.
#![tactic(auto)]

pub mod book;
pub mod calls;
pub mod diary;
pub mod laws;
pub mod opening;
pub mod questions;
pub mod table;
pub mod words;
