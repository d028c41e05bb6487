// Sizes of which more than one crate speaks, as specs/Sizes.antt has them.

// A frame takes this many bits of the clock: as many as its envelope has.
pub const FRAME_BITS: u64 = 384;

// No offset and no record's end lies above this bit of the clock: 2^42.
pub const MOST_OFFSET: u64 = 0x400_0000_0000;
