ghost use Rattle.std.specs.Prelude.{Some};

use ec_wire::*;
use std::io;
use std::io::{ErrorKind, Read, Write};
use test_streams::FailsAt;

/// A writer that takes at most three bytes at a time, and fails at a call, or takes nothing from there on.
#[derive(Drop)]
struct Slow {
    held: Vec<u8>,
    calls: u32,
    fails: bool,
}

impl Write for Slow {
    ghost contents = { λ w. Some w.held.items };

    fn write(&mut self, buf: &[u8]) -> io::Result<usize> {
        if self.calls == 0 {
            return if self.fails {
                Err(io::Error::from(ErrorKind::BrokenPipe))
            } else {
                Ok(0)
            };
        }
        self.calls -= 1;
        let count = buf.len().min(3);
        self.held.extend_from_slice(&buf[..count])?;
        Ok(count)
    }

    fn flush(&mut self) -> io::Result<()> {
        Ok(())
    }
}

#[test]
fn wire_bytes(rt: HostRuntime) {
    let wire = [
        frame_wire(2),
        frame_wire(46),
        frame_wire(47),
        frame_wire(1500),
    ];
    let rest = (frame_raw(18), ns_of(84), fits(84, 6720), fits(84, 6719));
    assert_eq!(rt; (wire, rest), ([84, 84, 85, 1538], (56, 6720, true, false)));
}

#[test]
fn reads_and_fails(rt: HostRuntime) {
    let mut input = Io::new(FailsAt {
        rest: b"abc",
        calls: 1,
    });
    let mut buf = [0u8; 8];
    let first = (input.read(&mut buf), buf, input.failed());
    let second = (input.read(&mut buf), input.failed());
    assert_eq!(rt;
        (first, second),
        ((Ok(3), *b"abc\0\0\0\0\0", false), (Err(IoFault), true))
    );
}

/// A text that is written to a slow writer, and what comes of it.
struct Row {
    what: &'static str,
    calls: u32,
    fails: bool,
    /// What is written before it by one call, if anything is.
    front: &'static str,
    text: &'static str,
    wanted: (Option<Result<usize, IoFault>>, Result<(), WriteFault>, bool),
    held: &'static str,
}

const WRITTEN: [Row; 3] = [
    Row {
        what: "takes it whole",
        calls: 9,
        fails: true,
        front: "ab",
        text: "cdefgh",
        wanted: (Some(Ok(2)), Ok(()), false),
        held: "abcdefgh",
    },
    Row {
        what: "fails",
        calls: 1,
        fails: true,
        front: "",
        text: "abcdef",
        wanted: (None, Err(WriteFault), true),
        held: "abc",
    },
    Row {
        what: "takes nothing more",
        calls: 1,
        fails: false,
        front: "",
        text: "abcdef",
        wanted: (None, Err(WriteFault), true),
        held: "abc",
    },
];

/// What the calls answer, and whether one has failed.
fn answers(
    slow: &mut Slow,
    row: &Row,
) -> (Option<Result<usize, IoFault>>, Result<(), WriteFault>, bool) {
    let mut io = Io::new(slow);
    let before = if row.front.is_empty() {
        None
    } else {
        Some(io.write(row.front.as_bytes()))
    };
    let whole = io.write_whole(row.text.as_bytes());
    (before, whole, io.failed())
}

#[test]
fn writes_in_parts(rt: HostRuntime) {
    for row in &WRITTEN {
        let mut slow = Slow {
            held: Vec::new(rt.alloc()),
            calls: row.calls,
            fails: row.fails,
        };
        let answer = answers(&mut slow, row);
        let is_held = slow.held.as_slice() == row.held.as_bytes();
        assert_eq!(rt; (answer, is_held), (row.wanted, true), "{}", row.what);
    }
}
