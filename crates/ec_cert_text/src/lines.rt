//! Lines of a text.

ghost use Rattle.std.specs.Prelude.{◌≡◌};
ghost use Rattle.ec_cert_text.specs.Reading.{Gives, line_at, fault_of};
ghost use Rattle.ec_cert_text.specs.Views.{at_view};

use crate::fault::CertFault;
use crate::place::TextPlace;
use crate::words::{Wrong, cut_at};

/// The next line, and the place after it.
#[tactic(auto, unfolding(crate::specs::Reading::line_at))]
pub(crate) fn line_of(place: TextPlace<'_>) -> Result<(&[u8], TextPlace<'_>), CertFault>
    ensures { Gives (λ x. (x.0.now, at_view x.1)) result (line_at (at_view place.entry)) }
{
    match cut_at(b'\n', place.rest) {
        Some((line, rest)) => {
            let next = TextPlace {
                line: place.line + 1,
                rest,
            };
            Ok((line, next))
        }
        None => Err(CertFault::Early(place.line)),
    }
}

/// What is wrong with a line, as a fault of the text.
pub(crate) fn fault_on(line: u32, wrong: Wrong) -> CertFault
    ensures { result ≡ fault_of line wrong }
{
    match wrong {
        Wrong::Words => CertFault::BadLine(line),
        Wrong::Number => CertFault::Number(line),
    }
}
