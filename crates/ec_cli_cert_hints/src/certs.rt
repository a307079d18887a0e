//! Faults of a certificate's text.

use crate::due::CertText;
use ec_cert_text::CertFault;
use ec_cli_spots::{Bytes, CertName, Inputs, header_of, line_at, made_text, position_of};
use ec_text_builder::Draft;

/// Adds a line of a certificate, from 0, as it stands.
pub(crate) fn add_line(out: &mut Draft, cert: &[u8], line: usize) {
    match line_at(cert, line) {
        None => {}
        Some([]) if line_at(cert, line.saturating_add(1)).is_none() => {
            out.add("    (the end of the text)\n");
        }
        Some([]) => out.add("    (an empty line)\n"),
        Some(bytes) => {
            out.add(format_args!("    {}\n", Bytes(bytes, 120)));
            if bytes.ends_with(b" ") {
                out.add("It ends with a space.\n");
            }
        }
    }
}

/// Adds the first byte that may not stand in a certificate, with its line and column.
fn add_stranger(out: &mut Draft, cert: &[u8]) {
    let mut bytes = cert.iter().copied().enumerate();
    let stranger = bytes.find(|(_, byte)| !matches!(byte, b'\n' | 0x20..=0x7e));
    let Some((at, byte)) = stranger else {
        return;
    };
    let (line, column) = position_of(cert, at);
    out.add(format_args!("Line {line}, column {column} has the byte {byte:02x}.\n"));
    out.add(match byte {
        b'\r' =>
            "It is a carriage return: each line ends with a line feed alone. Was the file changed by an editor?\n",
        b'\t' => "It is a tabulator: words are separated by one space.\n",
        0xef if at == 0 =>
            "It may be a byte order mark, which editors put before a text: no certificate has one.\n",
        0xfe | 0xff if cert.starts_with(b"\xff\xfe") || cert.starts_with(b"\xfe\xff") =>
            "It is UTF-16, as some editors save a text: take the file as plan --out wrote it.\n",
        _ => "",
    });
}

/// Whether a text begins as a certificate of a version that isn't known yet.
fn is_newer(cert: &[u8]) -> bool {
    let line = line_at(cert, 0).unwrap_or(&[]).trim_ascii_end();
    let version = line.strip_prefix(b"ecplan ").unwrap_or(&[]);
    !version.is_empty()
        && version.iter().all(u8::is_ascii_digit)
        && !version.starts_with(b"0")
        && !matches!(version, b"1" | b"2" | b"3" | b"4")
}

/// Whether a text begins a unit.
fn has_unit(text: &[u8]) -> bool {
    let mut lines = text.split(|byte| *byte == b'\n');
    lines.any(|line| std::str::from_utf8(line).is_ok_and(|line| header_of(line).is_some()))
}

/// Tells that a text doesn't begin as a certificate.
fn tell_version(out: &mut Draft, inputs: &Inputs<'_>) {
    out.add(format_args!(
        "{} does not begin with a line ecplan 1, ecplan 2, ecplan 3 or ecplan 4, as each certificate does",
        CertName(inputs.cert_path)
    ));
    match inputs.cert {
        None => out.add(".\n"),
        Some([]) => out.add(": it is empty.\n"),
        Some(cert) => {
            out.add(". It begins:\n");
            add_line(out, cert, 0);
            if let Some(made) = made_text(cert) {
                out.add(made);
            } else if has_unit(cert) {
                out.add("It is a unit text: a certificate is what plan --out writes.\n");
            } else if is_newer(cert) {
                out.add("A newer ecplan may have written it: check it with that one.\n");
            } else if !cert.contains(&b'\n') {
                out.add("Was the file cut off? Each line ends with a line feed.\n");
            }
        }
    }
}

/// What is told of a tree that isn't whole where its text ends.
const CHANGED: &str =
    "A line of the tree above it is missing, or was changed, perhaps far above.\n";

/// Adds what is due at a line, from 0, of a certificate, by its fault.
fn add_due(out: &mut Draft, cert: CertText<'_>, line: usize, fault: CertFault) {
    let is_behind = line
        .checked_sub(1)
        .is_some_and(|last| cert.line(last) == Some("end"));
    if !is_behind && !matches!(fault, CertFault::TooDeep(_)) {
        let (form, note) = cert.wanted_at(line);
        out.add(format_args!("Due there: {form}.\n{note}"));
    }
    let is_end = cert.line(line) == Some("end") && cert.line(line.saturating_add(1)).is_some();
    out.add(match fault {
        CertFault::Early(_) | CertFault::Late(_) if is_behind =>
            "The last line is end, behind the tree, and nothing follows it.\n",
        CertFault::Early(_) if is_end => CHANGED,
        CertFault::Early(_) =>
            "Was the file cut off? Each line ends with a line feed, also the last.\n",
        CertFault::Late(_) =>
            "This line was added or changed, or one of the tree above it, perhaps far above.\n",
        _ => "",
    });
}

/// Tells a fault of a certificate's text: of one of a line that, from 1, its text, and what is due there.
pub fn tell_cert(out: &mut Draft, inputs: &Inputs<'_>, fault: CertFault) {
    let name = CertName(inputs.cert_path);
    let (number, words) = match fault {
        CertFault::OutOfMemory => return out.add(
            "Memory ran out over the certificate: nothing is said of it. Run it with more memory.\n",
        ),
        CertFault::NotText => {
            out.add(format_args!("{name} is not plain text.\n"));
            let cert = inputs.cert.unwrap_or(&[]);
            return match made_text(cert) {
                Some(made) => out.add(made),
                None => add_stranger(out, cert),
            };
        }
        CertFault::Version => return tell_version(out, inputs),
        CertFault::TooLarge => {
            return out.add(format_args!("{name} is too large: at most 67108864 bytes are read.\n"));
        }
        CertFault::BadLine(line) => (line, "is not of the kind that is due"),
        CertFault::Number(line) => (line, "has a number that begins with 0 or is out of range"),
        CertFault::Early(line) => (line, "is not whole, or ends the text too early"),
        CertFault::Late(line) => (line, "stands where the certificate has to end"),
        CertFault::TooDeep(line) => (line, "has more than 48 splits above it in the tree"),
    };
    out.add(format_args!("{name}: line {number} {words}.\n"));
    if let (Some(cert), Some(line)) = (inputs.cert, (number as usize).checked_sub(1)) {
        add_line(out, cert, line);
        if let Some(cert) = CertText::of(inputs) {
            add_due(out, cert, line, fault);
        }
    }
}
