// Clauses read under a partial valuation: what one clause is there, and the first telling clause around a formula.
#![tactic(auto)]

pub mod clause;
pub mod round;
pub mod value;
pub mod values;

pub use clause::{Reading, Standing, read_clause};
pub use round::{Round, Telling, look_around};
pub use value::Value;
pub use values::{LARGEST, Values};
