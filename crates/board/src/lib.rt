// Boards: what they hold, the edits that change it, and their measure.
#![tactic(auto)]

pub mod chips;
pub mod edit;
pub mod measure;
pub mod net;
mod number;
pub mod open;
pub mod rack;
pub mod refusal;
pub mod sealed;
pub mod sizes;
mod table;
mod views;

pub use chips::Chips;
pub use edit::Edit;
pub use measure::Measure;
pub use net::Net;
pub use open::OpenBoard;
pub use rack::Rack;
pub use refusal::Refusal;
pub use sealed::SealedBoard;
pub use sizes::Sizes;
