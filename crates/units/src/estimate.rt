// What is carried of one run from round to round.
#[derive(Clone, Copy)]
pub struct Estimate {
    pub x: f64,
    pub variance: f64,
}
