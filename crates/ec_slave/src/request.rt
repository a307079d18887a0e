//! What a command asks of a slave.

ghost use Rattle.std.specs.Prelude.{◌≡◌};
ghost use Rattle.ec_slave.specs.Requests.{request_of, is_left_out};

use ec_frames::{AddressKind, Command, with_commands};

/// What a command asks of a slave: what its address names, and whether it moves bytes from the slave's memory into the
/// datagram, from the datagram into the memory, or both (ETG.1000.4, clause 5.4).
#[derive(Clone, Copy, Debug, PartialEq, Eq)]
pub struct Request {
    pub kind: AddressKind,
    pub reads: bool,
    pub writes: bool,
}

macro_rules! request_arms {
    ($command:expr; $(($code:literal, $variant:ident, $name:literal, $kind:ident, $reads:literal, $writes:literal))*) => {
        match $command {
            $(Command::$variant => Request {
                kind: AddressKind::$kind,
                reads: $reads,
                writes: $writes,
            },)*
        }
    };
}

/// Whether the modelled slave leaves datagrams with this command as they are (own profile).
fn is_left_out(command: Command) -> bool
    ensures { result ≡ is_left_out command }
{
    match command {
        Command::Nop | Command::Brw | Command::Armw | Command::Frmw => true,
        _ => false,
    }
}

/// What a command asks of the modelled slave, if it does anything there.
pub(crate) fn request_of(command: Command) -> Option<Request>
    ensures { result ≡ request_of command }
{
    if is_left_out(command) {
        return None;
    }
    Some(with_commands!(request_arms, command))
}
