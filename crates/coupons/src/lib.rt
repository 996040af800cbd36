// Coupons and price alignment: the arithmetic leaf of the engine.
#![tactic(auto)]

pub mod amounts;
pub mod exports;
mod factor;
pub mod figures;
mod formulas;
pub mod legs;
pub mod limits;
pub mod lines;
pub mod overnight;
pub mod plain;
mod rounding;
#[cfg(test)]
mod tests;
mod window;
