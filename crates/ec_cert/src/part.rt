//! Parts of the open leaves of a tree.

ghost use Rattle.std.specs.Prelude.{◌≡◌};
ghost use Rattle.ec_cert.specs.Parts.{IsPart, has_leaf, whole as whole_spec};

/// Which open leaves of a certificate's tree a search goes on with (own profile): those whose number, in preorder from 0,
/// leaves `index` when it is divided by `count`. The count is at least 1, and the index below it, where a part is asked for.
#[derive(Clone, Copy, Debug, PartialEq, Eq)]
pub struct Part {
    pub index: u16,
    pub count: u16,
}

impl Part {
    /// All open leaves.
    pub fn whole() -> Part
        ensures value { result ≡ whole_spec }
        ensures part { IsPart result }
    {
        Part { index: 0, count: 1 }
    }

    /// Whether the open leaf with this number is of the part.
    pub fn has_leaf(self, number: u64) -> bool
        requires { IsPart self }
        ensures { result ≡ has_leaf self number }
    {
        number % u64::from(self.count) == u64::from(self.index)
    }
}
