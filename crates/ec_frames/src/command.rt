ghost use Rattle.std.specs.Prelude.{◌≡◌};
ghost use Rattle.ec_frames.specs.Table.{column_of, command_with};

/// The fifteen rows of the command table (ETG.1000.4, clause 5.4), once: code, variant
/// of [`Command`], name, variant of [`AddressKind`], whether it reads and whether it writes.
///
/// `with_commands!(then, value)` expands `then! { value; row row .. }` with the rows in the order of
/// their codes, each as `(code, Variant, "NAME", Kind, reads, writes)`. So the caller writes one small
/// macro that makes arms of the rows, and a body that needs the table expands this one. It expands in
/// other crates too: the names `Command` and `AddressKind` are the caller's to bring in.
#[macro_export]
macro_rules! with_commands {
    ($then:ident, $value:expr) => {
        $then! { $value;
            (0, Nop, "NOP", None, false, false)
            (1, Aprd, "APRD", Position, true, false)
            (2, Apwr, "APWR", Position, false, true)
            (3, Aprw, "APRW", Position, true, true)
            (4, Fprd, "FPRD", Station, true, false)
            (5, Fpwr, "FPWR", Station, false, true)
            (6, Fprw, "FPRW", Station, true, true)
            (7, Brd, "BRD", Broadcast, true, false)
            (8, Bwr, "BWR", Broadcast, false, true)
            (9, Brw, "BRW", Broadcast, true, true)
            (10, Lrd, "LRD", Logical, true, false)
            (11, Lwr, "LWR", Logical, false, true)
            (12, Lrw, "LRW", Logical, true, true)
            (13, Armw, "ARMW", Position, true, true)
            (14, Frmw, "FRMW", Station, true, true)
        }
    };
}

macro_rules! code_arms {
    ($command:expr; $(($code:literal, $variant:ident, $name:literal, $kind:ident, $reads:literal, $writes:literal))*) => {
        match $command {
            $(Command::$variant => $code,)*
        }
    };
}

macro_rules! command_arms {
    ($number:expr; $(($code:literal, $variant:ident, $name:literal, $kind:ident, $reads:literal, $writes:literal))*) => {
        match $number {
            $($code => Some(Command::$variant),)*
            _ => None,
        }
    };
}

macro_rules! name_arms {
    ($command:expr; $(($code:literal, $variant:ident, $name:literal, $kind:ident, $reads:literal, $writes:literal))*) => {
        match $command {
            $(Command::$variant => $name,)*
        }
    };
}

macro_rules! kind_arms {
    ($command:expr; $(($code:literal, $variant:ident, $name:literal, $kind:ident, $reads:literal, $writes:literal))*) => {
        match $command {
            $(Command::$variant => AddressKind::$kind,)*
        }
    };
}

macro_rules! reads_arms {
    ($command:expr; $(($code:literal, $variant:ident, $name:literal, $kind:ident, $reads:literal, $writes:literal))*) => {
        match $command {
            $(Command::$variant => $reads,)*
        }
    };
}

macro_rules! writes_arms {
    ($command:expr; $(($code:literal, $variant:ident, $name:literal, $kind:ident, $reads:literal, $writes:literal))*) => {
        match $command {
            $(Command::$variant => $writes,)*
        }
    };
}

/// A command of a datagram (ETG.1000.4, clause 5.4).
#[derive(Clone, Copy, Debug, PartialEq, Eq)]
pub enum Command {
    /// No operation.
    Nop,
    /// Auto increment physical read.
    Aprd,
    /// Auto increment physical write.
    Apwr,
    /// Auto increment physical read and write.
    Aprw,
    /// Configured address physical read.
    Fprd,
    /// Configured address physical write.
    Fpwr,
    /// Configured address physical read and write.
    Fprw,
    /// Broadcast read.
    Brd,
    /// Broadcast write.
    Bwr,
    /// Broadcast read and write.
    Brw,
    /// Logical read.
    Lrd,
    /// Logical write.
    Lwr,
    /// Logical read and write.
    Lrw,
    /// Auto increment physical read, multiple write.
    Armw,
    /// Configured address physical read, multiple write.
    Frmw,
}

/// What the 32 bits of a datagram's address name (ETG.1000.4, clause 5.4). The address of the
/// kinds `Position`, `Station` and `Broadcast` is two 16 bit numbers: the position or the station in
/// the low half, and an offset into the slave's memory, in bytes, in the high half.
#[derive(Clone, Copy, Debug, PartialEq, Eq)]
pub enum AddressKind {
    /// Nothing.
    None,
    /// A slave by its place in the line, and a memory offset.
    Position,
    /// A slave by its configured station number, and a memory offset.
    Station,
    /// Every slave, and a memory offset.
    Broadcast,
    /// One 32 bit address of a byte of the process image.
    Logical,
}

/// The code of a command, 0 to 14 (ETG.1000.4, clause 5.4).
pub fn code_of(command: Command) -> u8
    ensures { column_of (λ row. row.code) command ≡ Some result }
{
    with_commands!(code_arms, command)
}

/// The command of a code (ETG.1000.4, clause 5.4); none for a code above 14.
pub fn command_of(code: u8) -> Option<Command>
    ensures { result ≡ command_with code }
{
    with_commands!(command_arms, code)
}

/// The name of a command in the standard, in capitals (ETG.1000.4, clause 5.4).
pub fn name_of(command: Command) -> &'static str
    ensures { column_of (λ row. row.name) command ≡ Some result.now }
{
    with_commands!(name_arms, command)
}

/// What the address of a datagram with this command names (ETG.1000.4, clause 5.4).
pub fn address_kind(command: Command) -> AddressKind
    ensures { column_of (λ row. row.kind) command ≡ Some result }
{
    with_commands!(kind_arms, command)
}

/// Whether a command moves bytes from a slave into the datagram (ETG.1000.4, clause 5.4).
pub fn reads(command: Command) -> bool
    ensures { column_of (λ row. row.reads) command ≡ Some result }
{
    with_commands!(reads_arms, command)
}

/// Whether a command moves bytes from the datagram into a slave (ETG.1000.4, clause 5.4).
pub fn writes(command: Command) -> bool
    ensures { column_of (λ row. row.writes) command ≡ Some result }
{
    with_commands!(writes_arms, command)
}
