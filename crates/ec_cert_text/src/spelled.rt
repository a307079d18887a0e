//! The lines of a tree as they are written, read in one walk over their bytes.

ghost use Rattle.std.specs.Prelude.{◌≡◌, ◌<◌, ◌≤◌, ◌∷◌, ◌++◌, IfSome};
ghost use Rattle.std.specs.Fmt.{decimal};
ghost use Rattle.ec_cert_text.specs.NodeWords.{BeginsWithNode};
ghost use Rattle.ec_cert_text.specs.declared.nodes.Node.TheVariants as node;

use crate::nodes::Node;

/// The number that a text begins with, where it has no leading zero, is at most `high` and this byte follows it; and
/// the bytes after that one.
#[inline(always)]
fn spelled_number(end: u8, high: u32, text: &[u8]) -> Option<(u32, &[u8])>
    requires { high < 1000000 }
    ensures { IfSome result (λ x. (x.0 ≤ high) × (text.now ≡ decimal x.0 ++ end ∷ x.1.now)) }
{
    let mut value = 0;
    for (i, byte) in text.iter().enumerate() {
        if *byte == end {
            if i == 0 || (text[0] == b'0' && 1 < i) {
                return None;
            }
            return Some((value, &text[i + 1..]));
        }
        if *byte < b'0' || b'9' < *byte {
            return None;
        }
        value = 10 * value + u32::from(*byte - b'0');
        if high < value {
            return None;
        }
    }
    None
}

/// The tick of the leaf whose line a text begins with, and the bytes after that line. Of other lines nothing is said, nor
/// of one that isn't written as certificates are.
#[inline(always)]
pub(crate) fn spelled_tick(text: &[u8]) -> Option<(u32, &[u8])>
    ensures { IfSome result (λ x. BeginsWithNode text.now (node.TickLeaf x.0) x.1.now) }
{
    match text {
        [b'T', b' ', rest @ ..] => spelled_number(b'\n', 1023, rest),
        _ => None,
    }
}

/// The node whose line a text begins with, and the bytes after that line. Of an open leaf, of a line of weights, of one
/// that isn't written as certificates are, and of one that no line feed ends, nothing is said.
pub(crate) fn spelled_node(text: &[u8]) -> Option<(Node, &[u8])>
    ensures { IfSome result (λ x. BeginsWithNode text.now x.0 x.1.now) }
{
    match text {
        [b'T', ..] => {
            let (tick, rest) = spelled_tick(text)?;
            Some((Node::TickLeaf(tick), rest))
        }
        [b'S', b' ', rest @ ..] => {
            let (count, rest) = spelled_number(b'\n', 480, rest)?;
            if count == 0 {
                return None;
            }
            Some((Node::Split(count), rest))
        }
        [b'F', b' ', rest @ ..] => {
            let (tick, rest) = spelled_number(b' ', 1023, rest)?;
            let (slot, rest) = spelled_number(b'\n', 7, rest)?;
            Some((Node::FullLeaf(tick, slot as u8), rest))
        }
        [b'A', b'\n', rest @ ..] => Some((Node::Average, rest)),
        _ => None,
    }
}
