// The cash sheet: orders as text, their reader, and the report on a sheet.
#![tactic(auto)]

mod compose;
pub mod order;
pub mod reader;
pub mod reading;
pub mod report;
#[cfg(test)]
mod tests;
pub mod writer;
