//! The hyperperiod of a line: the number of ticks after which its traffic repeats (own profile).
#![tactic(auto)]

ghost use Rattle.std.specs.Prelude.{◌≡◌, ℕ, ◌+◌, ◌*◌, ◌/◌, ◌%◌, ◌<◌, ◌≤◌, ◌↔◌, IsTrue, All, MatchResult, IfOk, IfErr};
ghost use Rattle.ec_hyper.specs.Lcm.{lcm, lcm_of, IsLcm};
ghost use Rattle.ec_hyper.specs.Travel.{travels};

use std::marker::Model;

/// The most ticks of a hyperperiod.
pub const MOST_TICKS: u32 = 1024;

/// The greatest period, in ticks.
pub const MOST_PERIOD: u16 = 60;

/// The hyperperiod would have more ticks than `MOST_TICKS`.
#[derive(Clone, Copy, Debug, PartialEq, Eq)]
pub struct TooLong;

/// A hyperperiod: the least common multiple of periods, 1 to 1024 ticks. A contract sees it as that number.
#[derive(Clone, Copy)]
pub struct Hyper {
    ticks: u32,
}

impl Model for Hyper {
    ghost Value = { ℕ };

    ghost view = { λ h. h.ticks };

    ghost invariant = { λ h. (1 ≤ h.ticks) × (h.ticks ≤ 1024) };

    ghost inverse = { λ n. record { ticks = n } };
}

/// The least common multiple of two numbers.
fn least_common(a: u32, b: u32) -> u32
    requires a_in { (1 ≤ a) × (a ≤ 1024) }
    requires b_in { (1 ≤ b) × (b ≤ 60) }
    ensures { result ≡ lcm a b }
{
    let mut multiple = a;
    for _factor in 1..b {
        if multiple % b == 0 {
            return multiple;
        }
        multiple += a;
    }
    multiple
}

impl Hyper {
    /// The hyperperiod of these periods, each 1 to 60 ticks; one tick where there are none.
    /// `TooLong` where their least common multiple is above `MOST_TICKS`. Takes no memory.
    pub fn of(periods: &[u16]) -> Result<Hyper, TooLong>
        requires { All (λ p. (1 ≤ p) × (p ≤ 60)) periods.now }
        ensures short { MatchResult result (λ h. (h ≡ lcm_of periods.now) × (lcm_of periods.now ≤ 1024)) (λ e. 1024 < lcm_of periods.now) }
        ensures least { IfOk result (λ h. IsLcm periods.now h) }
        ensures long { IfErr result (λ e. (h : ℕ) → IsLcm periods.now h → 1024 < h) }
    {
        let mut ticks = 1u32;
        for period in periods {
            ticks = least_common(ticks, u32::from(*period));
            if ticks > MOST_TICKS {
                return Err(TooLong);
            }
        }
        Ok(Hyper { ticks })
    }

    /// The number of ticks, 1 to 1024.
    pub fn ticks(&self) -> u32
        ensures value { result ≡ self.now }
        ensures range { (1 ≤ result) × (result ≤ 1024) }
    {
        self.ticks
    }

    /// Whether a unit of this period and phase, both in ticks, travels in the tick.
    pub fn active(period: u16, phase: u16, tick: u32) -> bool
        requires { 1 ≤ period }
        ensures { result ≡ travels period phase tick }
    {
        tick % u32::from(period) == u32::from(phase)
    }

    /// How often a unit of this period, in ticks, travels in a hyperperiod.
    pub fn times(&self, period: u16) -> u32
        requires { 1 ≤ period }
        ensures { result ≡ self.now / period }
    {
        self.ticks / u32::from(period)
    }
}
