//! The laws between certificates and their texts.

ghost use Rattle.std.specs.Prelude.{◌≡◌, ℕ, ◌+◌, ◌<◌, ◌≤◌, List, ◌∷◌, ◌++◌, length, Err};
ghost use Rattle.ec_cert_text.specs.declared.fault.CertFault.{CertFault};
ghost use Rattle.ec_cert_text.specs.declared.fault.CertFault.TheVariants.{Early, Version};
ghost use Rattle.ec_cert_text.specs.Fronts.{feed_count, fault_line, IsReadable};
ghost use Rattle.ec_cert_text.specs.Reading.{reading};
ghost use Rattle.ec_cert.specs.Shapes.{CertView};
ghost use Rattle.ec_cert.specs.WellFormed.{IsWellFormed};
ghost use Rattle.ec_cert_text.specs.Text.{certificate_text};

/// Well formed certificates that have one text are one certificate.
pub fn law_one_text_each()
    ensures { (a b : CertView) → IsWellFormed a → IsWellFormed b → certificate_text a ≡ certificate_text b → a ≡ b }
{}

/// The text of a certificate that was cut off: its version isn't known before its first line is complete, and from
/// there on it ends early, at the line that isn't complete.
pub fn law_fronts_are_early()
    ensures version { (c : CertView) (a b : List ℕ) → IsWellFormed c → certificate_text c ≡ a ++ b → length a < 9 → reading a ≡ Err Version }
    ensures early { (c : CertView) (a : List ℕ) (b : ℕ) (bs : List ℕ) → IsWellFormed c → certificate_text c ≡ a ++ b ∷ bs → 9 ≤ length a → length a ≤ 67108864 → reading a ≡ Err (Early (1 + feed_count a)) }
{}

/// A fault at a line that is complete in the front of a text is that of every text with this front, if it is one of
/// lines and isn't too long.
pub fn law_faults_stay()
    ensures { (a x y : List ℕ) (f : CertFault) → 1 ≤ fault_line f → fault_line f ≤ feed_count a → reading (a ++ x) ≡ Err f → IsReadable (a ++ y) → reading (a ++ y) ≡ Err f }
{}
