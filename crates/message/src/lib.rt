// Every message as a value, the settings as a value, and what is in range of them.
#![tactic(auto)]

pub mod certificate;
pub mod head;
pub mod readings;
pub mod settings;
pub mod value;

pub use certificate::Certificate;
pub use head::Head;
pub use settings::Settings;
pub use value::Message;
