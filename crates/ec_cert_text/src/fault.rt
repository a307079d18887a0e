//! Why a text is no certificate.

ghost use Rattle.std.specs.Prelude.{◌≡◌};
ghost use Rattle.ec_cert_text.specs.declared.fault.CertFault.TheVariants.{OutOfMemory};

use std::alloc::{AllocError, AllocFailed};

/// Why a text is no certificate. A number is that of a line, from 1 on.
#[derive(Clone, Copy, Debug, PartialEq, Eq)]
pub enum CertFault {
    /// Memory was refused.
    OutOfMemory,
    /// A byte is no line feed and not one of 0x20 to 0x7E.
    NotText,
    /// The first line is no known version line.
    Version,
    /// This line is not of the kind that is due, has another count of words, a bad unit name, or a word that is not
    /// all digits where a number is due.
    BadLine(u32),
    /// All words of this line are of the right kind, and a number has a leading zero or is out of range.
    Number(u32),
    /// The text ends before this line is complete, or this line is `end` where a node is due.
    Early(u32),
    /// This line is not `end` where `end` is due, or it follows `end`.
    Late(u32),
    /// The node of this line has more than 48 splits above it.
    TooDeep(u32),
    /// The text has more than 67,108,864 bytes.
    TooLarge,
}

impl From<AllocError> for CertFault {
    ghost from_gives = { λ _ e. e ≡ OutOfMemory };

    fn from(_e: AllocError) -> CertFault {
        CertFault::OutOfMemory
    }
}

impl<T: Drop> From<AllocFailed<T>> for CertFault {
    ghost from_gives = { λ _ e. e ≡ OutOfMemory };

    fn from(_e: AllocFailed<T>) -> CertFault {
        CertFault::OutOfMemory
    }
}
