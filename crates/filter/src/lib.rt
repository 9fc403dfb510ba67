// Computing: from a state and the chosen readings to the new state and the targets, bit for bit.
#![tactic(auto)]

pub mod checked;
pub mod compute;
pub mod limit;
pub mod run;
pub mod runs;
pub mod share;

pub use checked::Uncomputed;
pub use compute::{Computed, Round};
pub use run::Outcome;
