// What a message leads to, as a small value: an effect on the controller, what is sent, and what the step says.
#![tactic(auto)]

pub mod brief;
pub mod judge;
pub mod planned;
pub mod readings;
pub mod states;
pub mod timers;
pub mod votes;

pub use brief::{Brief, Phase};
pub use planned::{Change, Effect, Plan, Sent};
