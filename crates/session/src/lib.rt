// The station program as a library on byte slices: settings first, then a controller; bytes in, bytes out.
#![tactic(auto)]

pub mod answer;
pub mod carry;
pub mod feed;
pub mod handle;
pub mod run;
pub mod serve;
pub mod stage;
pub mod turn;

pub use feed::{Fed, Session};
pub use run::Ran;
pub use stage::{Core, Stage};
