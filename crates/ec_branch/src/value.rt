//! The value in use.

ghost use Rattle.std.specs.Prelude.{◌≡◌, ◌⊎◌};
ghost use Rattle.ec_loads.specs.Search.{IsAtMost};

/// The value in use in wire bytes, none where there is none yet, and the nodes that may still be closed or split.
#[derive(Clone, Copy, Debug)]
pub(crate) struct Search {
    pub value: Option<u64>,
    pub left: u32,
}

/// The lesser of two values in wire bytes; none is above every number. Takes no memory.
pub fn lesser(a: Option<u64>, b: Option<u64>) -> Option<u64>
    ensures first { IsAtMost result a }
    ensures second { IsAtMost result b }
    ensures one { (result ≡ a) ⊎ (result ≡ b) }
{
    match (a, b) {
        (Some(x), Some(y)) => Some(x.min(y)),
        (Some(x), None) => Some(x),
        (None, y) => y,
    }
}
