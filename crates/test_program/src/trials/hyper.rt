ghost use Rattle.std.specs.Prelude.{◌≤◌, All};

use ec_hyper::*;

// The hyperperiod in ticks, or 0 where it is too long.
fn ticks_of(periods: &[u16]) -> u32
    requires { All (λ p. (1 ≤ p) × (p ≤ 60)) periods.now }
{
    match Hyper::of(periods) {
        Ok(hyper) => hyper.ticks(),
        Err(TooLong) => 0,
    }
}

/// How often a unit of this period travels in the hyperperiod of 4 and 6.
fn times_of(period: u16) -> Option<u32>
    requires { 1 ≤ period }
{
    let hyper = Hyper::of(&[4, 6]).ok()?;
    Some(hyper.times(period))
}

#[test]
fn hyperperiods(rt: HostRuntime) {
    let ticks = [
        ticks_of(&[]),
        ticks_of(&[1]),
        ticks_of(&[2, 3]),
        ticks_of(&[4, 6, 10]),
        ticks_of(&[60, 17]),
        ticks_of(&[31, 33]),
        ticks_of(&[25, 41]),
        ticks_of(&[60, 59]),
    ];
    let every_fourth = [Hyper::active(4, 3, 7), Hyper::active(4, 3, 8)];
    let times = [times_of(4), times_of(6)];
    assert_eq!(rt;
        (ticks, every_fourth, times),
        (
            [1, 1, 6, 60, 1020, 1023, 0, 0],
            [true, false],
            [Some(3), Some(2)]
        )
    );
}
