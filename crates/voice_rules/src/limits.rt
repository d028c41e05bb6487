// The limits of a trial's tests, as specs/Limits.antt has them: a test passes when the measured number is at most the limit.

// At most this many coded bits may differ in a hard stage.
pub const MOST_DISTANCE: u32 = 8;

// At most this many bits of bytes 32 and 33 may differ from a mode in joint.
pub const MOST_MODE_BITS: u32 = 2;

// At most this many bits of bytes 28 to 41 may differ in joint.
pub const MOST_OUTER_BITS: u32 = 6;

// At most this many of the bytes 28 to 41 may differ in joint.
pub const MOST_OUTER_BYTES: u32 = 4;

// At most this many coded bits and bits of bytes 32 to 41, together, may differ in joint.
pub const MOST_TOTAL: u32 = 12;

// At most this many coded bits may differ in soft decoding.
pub const MOST_SOFT_DISTANCE: u32 = 24;
