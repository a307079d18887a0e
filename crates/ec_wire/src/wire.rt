//! Bytes and time of Ethernet frames on the wire.

ghost use Rattle.std.specs.Prelude.{◌≡◌, ℕ, ◌+◌, ◌*◌, ◌≤◌, ◌↔◌, IsTrue};
ghost use Rattle.ec_wire.specs.Wire.{wire_of, raw_of, ns_of as ns};

/// Bytes of a frame beside its payload (IEEE 802.3): preamble with start delimiter 8, header 14, frame check
/// sequence 4, gap 12.
pub const OVERHEAD: u32 = 38;

/// The least payload of a frame in bytes (IEEE 802.3); a shorter one is padded to it.
pub const LEAST_PAYLOAD: u32 = 46;

/// Nanoseconds of one byte at 100 Mbit/s.
pub const BYTE_NS: u64 = 80;

/// The bytes that a frame with a payload of 2 to 100,000 bytes takes on the wire, its padding included.
pub fn frame_wire(payload: u32) -> u32
    requires least { 2 ≤ payload }
    requires most { payload ≤ 100000 }
    ensures { result ≡ wire_of payload }
{
    OVERHEAD + payload.max(LEAST_PAYLOAD)
}

/// The bytes that a frame with a payload of 2 to 100,000 bytes takes on the wire without padding.
pub fn frame_raw(payload: u32) -> u32
    requires least { 2 ≤ payload }
    requires most { payload ≤ 100000 }
    ensures { result ≡ raw_of payload }
{
    OVERHEAD + payload
}

/// The time in ns that at most 1,000,000 bytes take on the wire.
pub fn ns_of(bytes: u64) -> u64
    requires { bytes ≤ 1000000 }
    ensures { result ≡ ns bytes }
{
    BYTE_NS * bytes
}

/// Whether so many bytes fit into a tick of `tick_ns` nanoseconds.
pub fn fits(bytes: u64, tick_ns: u32) -> bool
    ensures { IsTrue result ↔ (80 * bytes ≤ tick_ns) }
{
    bytes <= u64::from(tick_ns) / BYTE_NS
}
