// The size of a station, and the numbers of its settings that stepping and computing need.
ghost use Rattle.std.specs.Prelude.{◌≡◌};
ghost use Rattle.units.specs.Settings.{group_fits, numbers_fit, place_fits, runs_fit};
ghost use Rattle.units.specs.Within.{within};

use crate::limits::{
    CONTROLLERS, FACTOR_LOW, FACTOR_TOP, FIRST_LOW, FIRST_TOP, NOISE_LOW, NOISE_TOP, RUNS,
    WEIGHT_LOW, WEIGHT_TOP,
};

// g controllers and m runs.
#[derive(Clone, Copy, PartialEq, Eq)]
pub struct Group {
    pub g: usize,
    pub m: usize,
}

impl Group {
    #[tactic(auto, unfolding(crate::specs::Settings::group_fits))]
    pub fn in_range(self) -> bool
        ensures { result ≡ group_fits self }
    {
        (1..=CONTROLLERS).contains(&self.g) && (1..=RUNS).contains(&self.m)
    }
}

// The settings without their certificates; places at m and above hold 0.
// Factors and weights are a column each: `weight_sum` goes by the weights alone, and a struct of both in its place is no plainer.
#[derive(Clone, Copy)]
pub struct Numbers {
    pub group: Group,
    pub q: u32,
    pub r: u32,
    pub p: u32,
    pub factors: [u32; 16],
    pub weights: [u32; 16],
}

// Whether n is one of low..top.
fn is_within(low: u32, top: u32, n: u32) -> bool
    ensures { result ≡ within low top n }
{
    (low..=top).contains(&n)
}

// Whether a place holds a run's factor and weight, or nothing where it is no run.
fn place_in_range(run: bool, factor: u32, weight: u32) -> bool
    ensures { result ≡ place_fits run factor weight }
{
    if run {
        is_within(FACTOR_LOW, FACTOR_TOP, factor) && is_within(WEIGHT_LOW, WEIGHT_TOP, weight)
    } else {
        factor == 0 && weight == 0
    }
}

impl Numbers {
    fn runs_in_range(self) -> bool
        ensures { result ≡ runs_fit self }
    {
        let m = self.group.m;
        let both = self.factors.iter().zip(&self.weights);
        both.enumerate().all(|(i, (factor, weight))| place_in_range(i < m, *factor, *weight))
    }

    #[tactic(auto, unfolding(crate::specs::Settings::numbers_fit))]
    pub fn in_range(self) -> bool
        ensures { result ≡ numbers_fit self }
    {
        self.group.in_range()
            && (is_within(NOISE_LOW, NOISE_TOP, self.q) && is_within(NOISE_LOW, NOISE_TOP, self.r))
            && is_within(FIRST_LOW, FIRST_TOP, self.p)
            && self.runs_in_range()
    }
}
