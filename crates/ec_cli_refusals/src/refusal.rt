//! What the program refuses.

ghost use Rattle.std.specs.Prelude.{◌≡◌};
ghost use Rattle.ec_cli_refusals.specs.Memory.{text_memory, play_memory};
ghost use Rattle.ec_cli_refusals.specs.Refusals.{refusal_code, out_of_memory};
ghost use Rattle.ec_cli_refusals.specs.declared.refusal.Refusal.TheVariants.{Unit as UnitRefusal, Illegal as IllegalRefusal, Cert as CertRefusal, Solve as SolveRefusal};

use ec_cert_text::CertFault;
use ec_checker::CheckFault;
use ec_loads::Illegal;
use ec_outcome::{PlayFault, PlayTextFault, SolveFault, TextFault};
use ec_unit_text::UnitFault;
use std::alloc::{AllocError, AllocFailed};

/// Why a run was refused.
#[derive(Clone, Copy, Debug, PartialEq, Eq)]
pub enum Refusal {
    /// The unit text has this fault, or memory ran out.
    Unit(UnitFault),
    /// The plan is not legal.
    Illegal(Illegal),
    /// The unit text has more than 1,048,576 bytes.
    TooLarge,
    /// This unit, numbered in file order from 0, has no place.
    NoPlace(usize),
    /// A read failed.
    Read,
    /// The certificate's text has this fault, or memory ran out while it was read.
    Cert(CertFault),
    /// The certificate shows nothing of the units, or memory ran out while it was checked.
    Check(CheckFault),
    /// Memory ran out before the search, or no worker could be started.
    Solve(SolveFault),
    /// A file or the text wasn't written: a write failed, what stands at a path is left as it is, or two paths are one.
    Write,
    /// The certificate is right and holds no plan: there is none, or the search of a certificate with a level found none.
    CertHasNoPlan,
    /// The plan isn't played to its end, or memory ran out over its layout or its frames.
    Play(PlayFault),
}

impl Refusal {
    /// The exit status: 4 for memory, threads, reading and writing, else 3.
    pub fn code(&self) -> u8
        ensures { result ≡ refusal_code self.now }
    {
        match self {
            Refusal::Unit(UnitFault::OutOfMemory)
            | Refusal::Cert(CertFault::OutOfMemory)
            | Refusal::Check(CheckFault::OutOfMemory)
            | Refusal::Solve(_)
            | Refusal::Read
            | Refusal::Write
            | Refusal::Play(PlayFault::OutOfMemory | PlayFault::Ring | PlayFault::Spawn) => 4,
            Refusal::Unit(_)
            | Refusal::Illegal(_)
            | Refusal::TooLarge
            | Refusal::NoPlace(_)
            | Refusal::Cert(_)
            | Refusal::Check(_)
            | Refusal::CertHasNoPlan
            | Refusal::Play(_) => 3,
        }
    }
}

impl From<AllocError> for Refusal {
    ghost from_gives = { λ _ r. r ≡ out_of_memory };

    fn from(_error: AllocError) -> Refusal {
        Refusal::Unit(UnitFault::OutOfMemory)
    }
}

impl<T: Drop> From<AllocFailed<T>> for Refusal {
    ghost from_gives = { λ _ r. r ≡ out_of_memory };

    fn from(_error: AllocFailed<T>) -> Refusal {
        Refusal::Unit(UnitFault::OutOfMemory)
    }
}

impl From<UnitFault> for Refusal {
    ghost from_gives = { λ f r. r ≡ UnitRefusal f };

    fn from(fault: UnitFault) -> Refusal {
        Refusal::Unit(fault)
    }
}

impl From<CertFault> for Refusal {
    ghost from_gives = { λ f r. r ≡ CertRefusal f };

    fn from(fault: CertFault) -> Refusal {
        Refusal::Cert(fault)
    }
}

impl From<SolveFault> for Refusal {
    ghost from_gives = { λ f r. r ≡ SolveRefusal f };

    fn from(fault: SolveFault) -> Refusal {
        Refusal::Solve(fault)
    }
}

impl From<Illegal> for Refusal {
    ghost from_gives = { λ f r. r ≡ IllegalRefusal f };

    fn from(illegal: Illegal) -> Refusal {
        Refusal::Illegal(illegal)
    }
}

impl From<TextFault> for Refusal {
    ghost from_gives = { λ f r. r ≡ text_memory f };

    fn from(fault: TextFault) -> Refusal {
        match fault {
            TextFault::Frames => Refusal::Play(PlayFault::OutOfMemory),
            TextFault::Text => Refusal::Unit(UnitFault::OutOfMemory),
        }
    }
}

impl From<PlayTextFault> for Refusal {
    ghost from_gives = { λ f r. r ≡ play_memory f };

    fn from(fault: PlayTextFault) -> Refusal {
        match fault {
            PlayTextFault::Play(fault) => Refusal::Play(fault),
            PlayTextFault::Text => Refusal::Unit(UnitFault::OutOfMemory),
        }
    }
}
