// The odometer: a solver that counts through all valuations, for questions of up to 16 variables.
#![tactic(auto)]

mod candidate;
mod count;
mod solver;

pub use candidate::answers;
pub use solver::Odometer;
