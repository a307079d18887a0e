//! Runs of jobs.

ghost use Rattle.std.specs.Prelude.{◌≡◌, false, option_map};
ghost use Rattle.ec_wire.specs.Stream.{has_failed};
ghost use Rattle.ec_cli_command.specs.Words.{IsPlain, JobFits};
ghost use Rattle.ec_cli_inputs.specs.Use.{used, lent};
ghost use Rattle.ec_cli_run.specs.Runs.{HasCert, HasOut, NoneFailed};
ghost use Rattle.ec_cli_run.specs.Sound.{IsRun};

use crate::answering::{tell, tell_plain};
use crate::delivering::{deliver_text, deliver_to};
use crate::job::Status;
use ec_cli_command::Job;
use ec_cli_inputs::{read_alone, read_both};
use ec_tree::{law_levels_bound, law_trees_bound};
use ec_wire::Io;
use ec_workers::Gate;
use std::alloc::Global;
use std::io::{Read, Write};
use std::sync::Wait;
use std::thread::Threads;

/// Does a job: reads the units, and then the certificate where the job has one, makes its whole answer, and then writes it to `text`; what
/// there is for jobs that search for nothing is as in `run_plain`. A plan and a resumed search work with one worker in the calling thread
/// or with 2 to 16 in threads of their own, and the certificate of what they found is written to `out`, if `out` is there, before the text;
/// `gate` is told before each node, but for those of seeding. It reads at most 1,048,577 bytes of units and 67,108,865 of a certificate. A
/// cost and a plan leave `cert` unread. Only a plan, a resumed search and a capture write to `out`.
pub fn run<R: Read, C: Read, W: Write, O: Write, T: Threads + Wait + Sync, G: Gate + Sync>(
    rt: &T,
    alloc: Global,
    job: &Job,
    units: &mut Io<R>,
    cert: Option<&mut Io<C>>,
    text: &mut Io<W>,
    out: Option<&mut Io<O>>,
    gate: &G,
) -> Status
    requires job { JobFits job.now }
    requires units { has_failed units.old ≡ false }
    requires cert { HasCert job.now (option_map (λ r. r.now) cert) }
    requires text { has_failed text.old ≡ false }
    requires out { NoneFailed (option_map (λ r. r.now) out) }
    ensures { IsRun job.now (used R.remaining units.old units.new) (lent C.remaining cert.entry cert.exit) (used W.contents text.old text.new) (lent O.contents out.entry out.exit) result.code }
{
    law_trees_bound();
    law_levels_bound();
    let read = match cert {
        Some(cert) => {
            if job.reads_cert() {
                read_both(alloc, units, cert)
            } else {
                read_alone(alloc, units)
            }
        }
        None => read_alone(alloc, units),
    };
    let told = tell(rt, alloc, job, read, gate);
    match out {
        Some(out) => {
            if job.writes_file() {
                deliver_to(told, out, text)
            } else {
                deliver_text(told, text)
            }
        }
        None => deliver_text(told, text),
    }
}

/// Does a job that searches for nothing, without a runtime: reads the units, and then the certificate where the job has
/// one, makes its whole answer, and then writes it to `text`. It reads at most 1,048,577 bytes of units and 67,108,865 of a
/// certificate, so it ends on readers that never do. A cost leaves `cert` unread, and so does a check of units that are
/// refused. A capture writes its file to `out`, if `out` is there, before the text; no other job writes to it.
pub fn run_plain<R: Read, C: Read, W: Write, O: Write>(
    alloc: Global,
    job: &Job,
    units: &mut Io<R>,
    cert: Option<&mut Io<C>>,
    text: &mut Io<W>,
    out: Option<&mut Io<O>>,
) -> Status
    requires plain { IsPlain job.now }
    requires units { has_failed units.old ≡ false }
    requires cert { HasCert job.now (option_map (λ r. r.now) cert) }
    requires text { has_failed text.old ≡ false }
    requires out { HasOut job.now (option_map (λ r. r.now) out) }
    ensures { IsRun job.now (used R.remaining units.old units.new) (lent C.remaining cert.entry cert.exit) (used W.contents text.old text.new) (lent O.contents out.entry out.exit) result.code }
{
    law_trees_bound();
    law_levels_bound();
    let read = match cert {
        Some(cert) => {
            if job.reads_cert() {
                read_both(alloc, units, cert)
            } else {
                read_alone(alloc, units)
            }
        }
        None => read_alone(alloc, units),
    };
    let told = tell_plain(alloc, job, read);
    match out {
        Some(out) => {
            if job.writes_file() {
                deliver_to(told, out, text)
            } else {
                deliver_text(told, text)
            }
        }
        None => deliver_text(told, text),
    }
}
