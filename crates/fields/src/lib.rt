// Fields: digits, the one spelling of each number, splitting at tabs, certificates, days, putting bytes, and a stream cut into lines.
#![tactic(auto)]

pub mod certificate;
pub mod cut;
pub mod day;
pub mod decimal;
pub mod digit;
pub mod factor;
pub mod field;
pub mod hex;
pub mod line;
pub mod put;
pub mod quick;
pub mod read;
pub mod spelling;
pub mod text;
pub mod write;

pub use certificate::certificate_end;
pub use cut::{Carry, Cut};
pub use day::{read_day, whole_day};
pub use digit::read_digits;
pub use factor::{put_factor, read_factor};
pub use field::{Fault, Field};
pub use line::scan;
pub use put::put_part;
pub use quick::{read_decimal_here, read_here};
pub use read::read_at;
pub use spelling::{Limit, Spelling};
pub use text::Scan;
pub use write::{put_at, width};
