//! How a program of one's own makes the frames of the best plan for a unit text: the example of docs/INTEGRATING.md.
#![tactic(auto)]

use ec_cli_refusals::Refusal;
use ec_fmmu::layout;
use ec_frame_builder::tick_frames;
use ec_frames::Frame;
use ec_loads::is_legal;
use ec_unit_text::read_units;
use ec_workers::{Outcome, Quiet, solve};
use std::alloc::Global;
use std::io;
use std::io::Read;
use std::sync::Wait;
use std::thread::Threads;

/// The frames of a tick of the best plan for a unit text, with an image of zeros.
fn best_frames<T: Threads + Wait + Sync>(
    rt: &T,
    alloc: Global,
    text: &[u8],
    tick: u32,
) -> Result<Vec<Frame>, Refusal> {
    let units = read_units(alloc, text)?;
    let outcome = solve(rt, alloc, &units, 1, 1_000_000, false, &Quiet)?;
    let Outcome::Optimal { plan, .. } = outcome else {
        return Err(Refusal::CertHasNoPlan);
    };
    is_legal(&units, &plan)?;
    let mapping = layout(alloc, &units, &plan)?;
    let image = vec![in alloc; 0u8; mapping.total as usize]?;
    let frames = tick_frames(alloc, &units, &mapping, image.as_slice(), tick)?;
    Ok(frames)
}

/// Tells how many bytes each frame of tick 0 has, of a unit text on standard input.
fn main(rt: HostRuntime) -> io::Result<()> {
    let mut text = Vec::new(rt.alloc());
    rt.reader().read_to_end(&mut text)?;
    let Ok(frames) = best_frames(&rt, rt.alloc(), text.as_slice(), 0) else {
        return rt.print("no best plan\n");
    };
    for frame in frames.as_slice() {
        let bytes = frame.len();
        println!(rt; "a frame of {bytes} bytes")?;
    }
    Ok(())
}
