//! The slaves of a line, of which some are lost.

ghost use Rattle.std.specs.Prelude.{◌≡◌, ◌==◌, length, IfOk};
ghost use Rattle.std.specs.List.{list_any};
ghost use Rattle.ec_play_trial.specs.Members.{handed_on, left, members};

use ec_frames::Frame;
use ec_slave::{Pass, SlaveBox};
use std::alloc::{AllocError, Global};

/// A slave of a line: a modelled one, or one that is lost and passes each frame on as it is.
#[derive(Drop)]
pub struct Member {
    pub slave: SlaveBox,
    pub is_lost: bool,
}

impl Pass for Member {
    ghost out = { handed_on };

    ghost next = { left };

    fn pass(&mut self, frame: &mut Frame) {
        if !self.is_lost {
            self.slave.step(frame);
        }
    }
}

/// Whether a station is one of some.
fn is_among(station: u16, some: &[u16]) -> bool
    ensures { result ≡ list_any (λ s. s == station) some.now }
{
    for one in some {
        if *one == station {
            return true;
        }
    }
    false
}

/// These slaves as members of a line, of which those with a station of some are lost. An error is want of memory.
pub(crate) fn members_of(
    alloc: Global,
    slaves: Vec<SlaveBox>,
    stations: &[u16],
    lost: &[u16],
) -> Result<Vec<Member>, AllocError>
    requires { length slaves.items ≡ length stations.now }
    ensures { IfOk result (λ v. v.items ≡ members lost.now stations.now slaves.items) }
{
    let mut line = Vec::new(alloc);
    let mut number = 0usize;
    for slave in slaves {
        let is_lost = is_among(stations[number], lost);
        line.push(Member { slave, is_lost })?;
        number += 1;
    }
    Ok(line)
}
