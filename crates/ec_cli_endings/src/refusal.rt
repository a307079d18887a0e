//! What is told of a refusal.

use crate::record::Record;
use ec_cert_text::{CertFault, MOST_BYTES};
use ec_checker::CheckFault;
use ec_cli_explain::{Inputs, explain};
use ec_cli_files::read_file;
use ec_cli_paths::{Host, reason_at, tell_unread};
use ec_cli_refusals::Refusal;
use std::alloc::AllocError;
use std::io::Read;
use std::rt::Files;
use std::{fs, io};

/// What is told where nothing came on standard input.
const NOTHING: &str =
    "Nothing came on standard input. Name the file of the units as a word, as in ecplan plan line.toml, or send its text.\n";

/// Reads one byte of what stands at a path, to see why that fails. What can't be opened without waiting, as a pipe, isn't tried.
fn try_read<R: Files>(files: &R, path: &str) -> io::Result<()> {
    let found = fs::metadata(files, path)?;
    if found.is_file() || found.is_dir() {
        let mut byte = [0u8; 1];
        fs::open(files, path)?.read(&mut byte)?;
    }
    Ok(())
}

/// Why the system refused the units or the certificate at a path, for the line that says so.
fn reason_for<R: Files>(
    files: &R,
    refusal: &Refusal,
    cert: Option<&String>,
    fault: Option<io::Error>,
) -> Option<io::Error> {
    match (refusal, fault, cert) {
        (Refusal::Read, Some(error), _) => Some(error),
        (Refusal::Read, None, Some(path)) => try_read(files, path.as_str()).err(),
        _ => None,
    }
}

/// Whether a refusal is of what stands in a certificate.
fn is_of_cert(refusal: &Refusal) -> bool {
    match refusal {
        Refusal::Cert(fault) => !matches!(fault, CertFault::OutOfMemory | CertFault::TooLarge),
        Refusal::Check(fault) => !matches!(fault, CheckFault::OutOfMemory),
        Refusal::CertHasNoPlan => true,
        _ => false,
    }
}

/// The certificate at a path that a refusal is about, if it can be read again.
fn cert_for(rt: &impl Host, refusal: &Refusal, path: &str) -> Option<Vec<u8>> {
    if !is_of_cert(refusal) {
        return None;
    }
    read_file(rt, rt.alloc(), path, MOST_BYTES as u64)
        .ok()
        .flatten()
}

/// What there is to tell of a refusal.
fn refusal_text<'x>(
    rt: &impl Host,
    refusal: &Refusal,
    cert_path: Option<&'x String>,
    record: Record<'x>,
) -> Result<String, AllocError> {
    let reason = match reason_for(rt, refusal, cert_path, record.fault) {
        Some(error) => Some(reason_at(rt, cert_path.map_or("", |path| path.as_str()), error)?),
        None => None,
    };
    let cert = cert_path.and_then(|path| cert_for(rt, refusal, path.as_str()));
    let inputs = Inputs {
        units: record.text,
        cert: match &cert {
            Some(bytes) => Some(bytes.as_slice()),
            None => None,
        },
        cert_path: cert_path.map(|path| path.as_str()),
        reason: reason.as_deref(),
    };
    explain(rt.alloc(), refusal, &inputs)
}

/// Tells what a refusal means: of the units, or of the certificate that was to be read. Where that can't be written or made, nothing is.
pub fn tell_refusal<'x>(
    rt: &impl Host,
    refusal: &Refusal,
    cert: Option<&'x String>,
    record: Record<'x>,
) {
    if let (Some(path), Some(error)) = (record.path, record.fault) {
        return tell_unread(rt, path, error);
    }
    if record.path.is_none() && !record.came && matches!(refusal, Refusal::Unit(_)) {
        let _ = rt.eprint(NOTHING);
        return;
    }
    // Where standard input couldn't be read, the certificate has no part in it.
    let cert = if record.fault.is_some() { None } else { cert };
    if let Ok(told) = refusal_text(rt, refusal, cert, record) {
        let _ = rt.eprint(told.as_str());
    }
}
