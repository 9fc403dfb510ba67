// Document 01's table of quantities: each limit once.

// Controllers of a group, runs of a station.
pub const CONTROLLERS: usize = 7;

pub const RUNS: usize = 16;

// The bytes of a certificate.
pub const CERTIFICATE: usize = 16;

// Round labels and state labels.
pub const ROUND_LOW: u32 = 1;

pub const LABEL_TOP: u32 = 4294967295;

// A raw reading, in litres an hour.
pub const RAW_TOP: u32 = 1000000;

// A factor is one digit, a point and FACTOR_DIGITS digits, held in units of 1 / FACTOR_SCALE.
pub const FACTOR_DIGITS: usize = 4;

pub const FACTOR_SCALE: u32 = 10000;

pub const FACTOR_LOW: u32 = 9000;

pub const FACTOR_TOP: u32 = 11000;

pub const WEIGHT_LOW: u32 = 1;

pub const WEIGHT_TOP: u32 = 1000;

// q and r of the filter, and the first variance p.
pub const NOISE_LOW: u32 = 1;

pub const NOISE_TOP: u32 = 1000000;

pub const FIRST_LOW: u32 = 1;

pub const FIRST_TOP: u32 = 1000000000;

// The floats run from +0 to these.
pub const X_TOP: f64 = 1100000.0;

pub const VARIANCE_TOP: f64 = 1000000000.0;

pub const TARGET_TOP: f64 = 17600000.0;

// A refusal's number, as X may carry it.
pub const NUMBER_LOW: u32 = 1;

pub const NUMBER_TOP: u32 = 16;

// A line's bytes, its line feed among them.
pub const LINE: usize = 600;
