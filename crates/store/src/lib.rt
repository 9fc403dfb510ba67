// The store's certificates: an export read, the newest of each meter found, and the K lines written.
#![tactic(auto)]

pub mod count;
pub mod gather;
pub mod kept;
pub mod name;
pub mod newest;
pub mod picked;
pub mod put;
pub mod repeated;
pub mod row;
pub mod stored;
pub mod write;

pub use kept::{Kept, Told};
pub use name::name_of;
pub use stored::{Place, Refused, Serials};
pub use write::write_runs;
