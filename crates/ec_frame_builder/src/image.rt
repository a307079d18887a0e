//! What of an image is sent.

ghost use Rattle.std.specs.Prelude.{◌≡◌, ℕ, ◌+◌, ◌-◌, ◌<◌, ◌≤◌, ◌&&◌, nat_le, nat_lt, if◌then◌else◌, List, length, get_or, All, IfOk};
ghost use Rattle.std.specs.List.{list_any};
ghost use Rattle.ec_fmmu.specs.declared.fmmu.Fmmu.{Fmmu};
ghost use Rattle.ec_frame_builder.specs.Frames.{covers, sent};
ghost use Rattle.ec_frame_builder.specs.Within.{IsWithin, AreWithin};

use ec_fmmu::{FIRST_ADDRESS, Fmmu};
use std::alloc::{AllocError, Global};

/// The FMMU type of a slave's inputs.
const READS: u8 = 1;

/// Makes the bytes from one place to another 0.
fn clear(bytes: &mut [u8], from: usize, to: usize)
    requires order { from ≤ to }
    requires within { to ≤ length bytes.old }
    ensures { (k : ℕ) → get_or bytes.new k 0 ≡ (if nat_le from k && nat_lt k to then 0 else get_or bytes.old k 0) }
{
    for i in from..to {
        bytes[i] = 0;
    }
}

/// Makes the bytes of a record 0 if it is one of inputs.
fn clear_inputs(bytes: &mut [u8], fmmu: &Fmmu)
    requires { IsWithin (length bytes.old) fmmu.now }
    ensures { (k : ℕ) → get_or bytes.new k 0 ≡ (if covers (65536 + k) fmmu.now then 0 else get_or bytes.old k 0) }
{
    if fmmu.kind == READS {
        let from = (fmmu.logical - FIRST_ADDRESS) as usize;
        clear(bytes, from, from + usize::from(fmmu.len));
    }
}

/// Makes the bytes of the inputs of a slave 0.
fn clear_pair(bytes: &mut [u8], pair: &[Fmmu])
    requires { All (IsWithin (length bytes.old)) pair.now }
    ensures { (k : ℕ) → get_or bytes.new k 0 ≡ (if list_any (covers (65536 + k)) pair.now then 0 else get_or bytes.old k 0) }
{
    for fmmu in pair {
        clear_inputs(bytes, fmmu);
    }
}

/// The bytes of the image that are sent: its outputs, and 0 for each input of these FMMU records. The records lie within the image.
///
/// # Errors
///
/// `AllocError` where memory ran out.
pub fn sent_of(alloc: Global, fmmus: &[[Fmmu; 2]], image: &[u8]) -> Result<Vec<u8>, AllocError>
    requires { AreWithin (length image.now) fmmus.now }
    ensures { IfOk result (λ v. v.items ≡ sent fmmus.now image.now) }
{
    let mut bytes = Vec::new(alloc);
    bytes.extend_from_slice(image)?;
    for pair in fmmus {
        clear_pair(bytes.as_mut_slice(), pair);
    }
    Ok(bytes)
}
