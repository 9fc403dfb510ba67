// One controller of a group, as a machine of single steps.
#![tactic(auto)]

pub mod apply;
pub mod merge;
pub mod sent;
pub mod start;
pub mod state;
pub mod step;
pub mod told;

pub use start::Unstarted;
pub use state::Controller;
pub use step::{Answer, Said};
pub use told::Told;
