// The ground that every layer stands on: labels, refusals, limits, masks, estimates and the numbers of the settings.
#![tactic(auto)]

pub mod bytes;
pub mod estimate;
pub mod labels;
pub mod limits;
pub mod mask;
pub mod reading;
pub mod refusal;
pub mod settings;

pub use estimate::Estimate;
pub use labels::{RoundLabel, StateLabel};
pub use refusal::{Refusal, Verdict, answer_number, is_number};
pub use settings::{Group, Numbers};
