// Formulas and the interface that every solver keeps. Nothing here knows of boards or of a particular solver.
#![tactic(auto)]

pub mod formula;
pub mod question;
pub mod solver;

pub use formula::split_clause;
pub use question::{Question, Refusal, Verdict};
pub use solver::Solver;
