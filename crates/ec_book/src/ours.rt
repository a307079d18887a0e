//! Which pieces are of the part that a search goes on with.

ghost use Rattle.std.specs.Prelude.{◌≡◌};
ghost use Rattle.ec_cert.specs.Parts.{IsPart};
ghost use Rattle.ec_book.specs.Parts.{is_of_part as spec};

use ec_cert::Part;

/// Whether a piece is of the part, where the first so many pieces are the open leaves of the given tree: the part has that
/// leaf, or the piece came of one.
#[tactic(auto, unfolding(crate::specs::Parts::is_of_part))]
pub fn is_of_part(part: Part, given: u64, piece: u64) -> bool
    requires { IsPart part }
    ensures { result ≡ spec part given piece }
{
    piece >= given || part.has_leaf(piece)
}
