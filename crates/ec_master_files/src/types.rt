//! The fixed parts of the header.

/// How the header begins.
pub(crate) const HEAD: &str = "/* A plan of ecplan: tables for an EtherCAT master, in C99.
 *
 * Version 1 of these tables. Lengths and offsets are bytes, times are ns or ticks.
 * Places in a table are counted from 0. Numbers are the host's; those of EtherCAT go with
 * their lowest byte first. fmmu and ecplan_start_bytes are bytes as they are sent.
 * INTEGRATING.md of ecplan says how to use the tables, and FORMATS.md, \"Bytes of a frame\",
 * how a frame is made.
 */
";

/// What stands behind the guard of the header.
pub(crate) const TYPES: &str = "
#ifdef __KERNEL__
#include <linux/types.h>
#else
#include <stdint.h>
#endif

#define ECPLAN_VERSION 1
";

/// What stands before the names of the slaves.
pub(crate) const NAMES: &str = "
/* By stations: the places of the slaves in ecplan_slaves, their bytes, their groups, and their periods in ticks. */
";

/// What stands before the table of the slaves.
pub(crate) const SLAVE: &str = "
/* A slave. The slaves stand in file order, and ecplan_starts finds them in this order. */
struct ecplan_slave {
    const char *unit;    /* name of its unit */
    uint16_t station;    /* configured station address */
    uint16_t group;      /* its group: a place in ecplan_groups */
    uint32_t out_offset; /* bytes from the begin of the image to its outputs */
    uint32_t in_offset;  /* bytes from the begin of the image to its inputs */
    uint16_t out_bytes;  /* bytes of its outputs */
    uint16_t in_bytes;   /* bytes of its inputs */
    uint16_t out_at;     /* physical start address of its outputs: 0x1000 where the text gives none */
    uint16_t in_at;      /* physical start address of its inputs: 0x2000 where the text gives none */
    uint8_t fmmu[32];    /* its two FMMU records, as they are written to 0x0600 */
};

static const struct ecplan_slave ecplan_slaves[ECPLAN_SLAVES] = {
";

/// What stands before the table of the groups.
pub(crate) const GROUP: &str = "};

/* A group: the units that share one logical read-write datagram (LRW). It travels in
 * tick T, counted from 0, where T % period is phase. */
struct ecplan_group {
    uint8_t slot;     /* its slot: in a tick each slot that carries something has a frame */
    uint16_t period;  /* ticks */
    uint16_t phase;   /* ticks */
    uint32_t address; /* logical address */
    uint32_t offset;  /* bytes from the begin of the image to its data */
    uint16_t bytes;   /* bytes of its data */
    uint16_t counter; /* expected working counter (WKC) of its datagram */
};

static const struct ecplan_group ecplan_groups[ECPLAN_GROUPS] = {
";

/// What stands before the table of what the frames carry.
pub(crate) const SENT: &str = "};

/* The groups of each frame, one frame after the other: places in ecplan_groups. */
static const uint16_t ecplan_sent[ECPLAN_SENT] = {
";

/// What stands before the table of the frames.
pub(crate) const FRAME: &str = "};

/* A frame: a datagram for each of its groups, in this order. */
struct ecplan_frame {
    uint16_t first;      /* its first group: a place in ecplan_sent */
    uint16_t groups;     /* how many groups it has */
    uint16_t bytes;      /* bytes without preamble and frame check sequence */
    uint16_t wire_bytes; /* bytes on the wire: these and the gap included */
    uint8_t slot;        /* its slot in the tick */
};

static const struct ecplan_frame ecplan_frames[ECPLAN_FRAMES] = {
";

/// What stands before the table of the ticks.
pub(crate) const TICK: &str = "};

/* A tick: its frames, by slot. Of one without frames first names none. */
struct ecplan_tick {
    uint16_t first;      /* its first frame: a place in ecplan_frames */
    uint16_t frames;     /* how many frames it has */
    uint16_t wire_bytes; /* bytes on the wire of all its frames */
};

static const struct ecplan_tick ecplan_ticks[ECPLAN_TICKS] = {
";

/// What stands before the table of the start frames.
pub(crate) const START: &str = "};

/* A frame that is sent before the first tick, with one datagram. These frames count the
 * slaves and find them by position: on the cable there is no other device, as a coupler. */
struct ecplan_start {
    uint32_t first;   /* its first byte: a place in ecplan_start_bytes */
    uint16_t bytes;   /* bytes without preamble and frame check sequence */
    uint16_t counter; /* expected working counter (WKC) of its datagram */
};

static const struct ecplan_start ecplan_starts[ECPLAN_STARTS] = {
";

/// What stands before the bytes of the start frames.
pub(crate) const START_BYTES: &str = "};

static const uint8_t ecplan_start_bytes[ECPLAN_START_BYTES] = {";

/// How the header ends.
pub(crate) const END: &str = "
};

#endif
";
