//! What a search is told before it writes its certificate: that this may be too large, or takes the place of one of which parts are to be
//! made.

ghost use Rattle.ec_cli_command.specs.Words.{JobFits, job_of};

use crate::heads::Head;
use crate::telling::{Host, tell};
use ec_cert_text::MOST_BYTES;
use ec_cli_command::Line;
use ec_cli_explain::room_beside;
use ec_cli_files::are_one;
use ec_cli_spots::PathPiece;
use std::alloc::{AllocError, Global};
use std::fs;
use std::rt::Files;

/// How many nodes a search may visit so that its certificate can be read, and the path and the bytes of the one that it goes on with.
#[derive(Clone, Copy)]
struct Room<'a> {
    nodes: u64,
    beside: Option<(&'a str, u64)>,
}

/// The room beside the certificate at a path, unless it isn't a file, is too large to be read, or is a proof: no search goes on with these.
fn room_at<'a>(rt: &impl Host, path: &'a str) -> Option<Room<'a>> {
    let bytes = fs::metadata(rt, path).ok()?.len();
    let head = Head::at(rt, path).filter(|_| bytes <= MOST_BYTES as u64)?;
    let room = Room {
        nodes: room_beside(bytes, head.is_strong()),
        beside: Some((path, bytes)),
    };
    Some(room).filter(|_| head.has_level())
}

/// The room of a search that a line asks for.
fn room_of<'a>(rt: &impl Host, line: &'a Line) -> Option<Room<'a>> {
    match line {
        Line::Plan { strong, .. } => Some(Room {
            nodes: room_beside(0, *strong),
            beside: None,
        }),
        Line::Resume { cert, .. } => room_at(rt, cert.as_str()),
        _ => None,
    }
}

/// How many bytes of a certificate are read, and how many the one has that the search goes on with.
fn bytes_text(alloc: Global, room: Room<'_>) -> Result<String, AllocError> {
    let Some((path, bytes)) = room.beside else {
        return format!(in alloc; "At most {MOST_BYTES} bytes of a certificate are read.\n");
    };
    let path = PathPiece(path);
    format!(in alloc;
        "The certificate {path} has {bytes} bytes, and at most {MOST_BYTES} are read.\n"
    )
}

/// That the certificate of a search may be too large, with the most nodes that make none; `is_asked` where it visits more all the same,
/// since a number was asked for.
fn room_text(alloc: Global, room: Room<'_>, is_asked: bool) -> Result<String, AllocError> {
    let (front, nodes) = (bytes_text(alloc, room)?, room.nodes);
    match (nodes, is_asked) {
        (0, true) => format!(in alloc; "{front}One that goes on with it may have more.\n"),
        (0, false) => {
            format!(in alloc;
                "{front}So none goes on with it: give --nodes, leave --out out, or begin anew, with --strong or without.\n"
            )
        }
        (_, true) => {
            format!(in alloc;
                "{front}With more than {nodes} nodes the new one may have more, and no command reads it: give --nodes {nodes} or less.\n"
            )
        }
        (_, false) => {
            format!(in alloc;
                "{front}So this search visits at most {nodes} nodes: with more its own might have more.\n"
            )
        }
    }
}

/// Tells that a part of a certificate takes its place.
fn tell_replaced(rt: &impl Host, cert: &str) {
    let path = PathPiece(cert);
    tell(
        rt,
        format!(in rt.alloc();
            "Parts are those of the open leaves of {path}, and what this part finds is written over it.\nThe other parts can be made only of a copy from before: give each part an --out of its own.\n"
        ),
    );
}

/// The path of the certificate that a search goes on with, where its own takes that place and is a part of it (own profile).
pub fn replaced_at<'a, F: Files>(files: &F, line: &'a Line) -> Option<&'a str> {
    match line {
        Line::Resume {
            cert,
            part,
            out: Some(out),
            ..
        } if part.count > 1 && are_one(files, cert.as_str(), out.as_str()) => Some(cert.as_str()),
        _ => None,
    }
}

/// How many nodes leave a certificate that can be read of the search of a line, where it would visit more; tells that.
fn most_nodes(rt: &impl Host, line: &Line, is_asked: bool) -> Option<u32> {
    let effort = line.effort().filter(|_| line.out().is_some())?;
    let room = room_of(rt, line)?;
    if u64::from(effort.nodes) <= room.nodes {
        return None;
    }
    tell(rt, room_text(rt.alloc(), room, is_asked));
    u32::try_from(room.nodes).ok()
}

/// Tells, before a search, that its certificate may have more bytes than are read, and that it is a part of the one whose place it takes.
/// Where no number of nodes is asked for, it visits no more than there is room for. Whether there is room for some.
pub fn tell_onward(rt: &impl Host, line: &mut Line, is_asked: bool) -> bool
    requires { JobFits (job_of line.old) }
    ensures { JobFits (job_of line.new) }
{
    let most = most_nodes(rt, line, is_asked);
    if let Some(cert) = replaced_at(rt, line) {
        tell_replaced(rt, cert);
    }
    match most {
        Some(nodes) if !is_asked && nodes > 0 => {
            line.limit_nodes(nodes);
            true
        }
        Some(_) => is_asked,
        None => true,
    }
}
