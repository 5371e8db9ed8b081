// The forcing layer: it fixes what the assumed literals force, and questions the solver below about the rest.
#![tactic(auto)]

mod fixing;
mod layer;
mod listing;

pub use layer::Forcing;
