// The formula of a sealed board, as numbers and as text.
#![tactic(auto)]

mod block;
mod blocks;
pub mod buffer;
mod decimals;
mod lengths;
pub mod numbers;
pub mod printing;
mod ranking;
#[cfg(test)]
mod tests;
mod writing;

pub use buffer::{Buffer, ShortBuffer};
pub use numbers::formula;
pub use printing::text;
