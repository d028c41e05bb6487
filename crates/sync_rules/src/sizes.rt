// The synchroniser's sizes, as specs/Sizes.antt has them.

// So many bits are pending before a frame in place goes out, and before one that is not.
pub const IN_PLACE_BITS: usize = 384;

pub const OUT_OF_PLACE_BITS: usize = 392;

// So many bits are pending before a search looks at a place: three frames.
pub const SEARCH_BITS: usize = 1152;

// So many places a ring has: no more bits are held at any instant.
pub const MOST_HELD: usize = 1155;

// So many bytes a slot of the room has, for an envelope and its reliabilities, and the room, for three slots.
pub const SLOT_SIZE: usize = 432;

pub const ROOM_SIZE: usize = 1296;

// No more dibits are taken than 2^40.
pub const MOST_DIBITS: u64 = 0x100_0000_0000;
