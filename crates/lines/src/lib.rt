// Lines: every kind of line read and written in its one spelling, and the settings lines.
#![tactic(auto)]

mod counted;
pub mod kind;
pub mod numbers;
pub mod read;
pub mod setting;
pub mod settle;
pub mod straight;
pub mod table;
pub mod typed;
pub mod values;
pub mod write;

pub use kind::Kind;
pub use read::{First, Line};
pub use table::{Limit, Quantity};
