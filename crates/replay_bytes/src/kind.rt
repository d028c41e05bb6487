// The kinds of cases that docs/REPLAY.md numbers.
ghost use Rattle.replay_bytes.specs.Kinds.{Named};

// Names what a case calls, each with its number in a list.
#[derive(Clone, Copy, Debug, PartialEq, Eq)]
pub enum Kind {
    Checksum = 1,
    Scrambling = 2,
    Descrambling = 3,
    Field = 4,
    Tail = 5,
    TailRepair = 6,
    WordRepair = 7,
    Table = 8,
    Encoding = 9,
    Decoding = 10,
    SoftDecoding = 11,
    NewSynchroniser = 12,
    Push = 13,
    SoftPush = 14,
    NewMerger = 15,
    MergerPush = 16,
    MergerRelease = 17,
    Feed = 18,
    SoftFeed = 19,
    PackedFeed = 20,
}

// Holds a number that names no kind.
#[derive(Clone, Copy, Debug, PartialEq, Eq)]
pub struct UnknownKind(pub u8);

// Gives the kind that a number names.
impl TryFrom<u8> for Kind {
    type Error = UnknownKind;

    ghost try_from_gives = { Named };

    fn try_from(number: u8) -> Result<Kind, UnknownKind> {
        Ok(match number {
            1 => Kind::Checksum,
            2 => Kind::Scrambling,
            3 => Kind::Descrambling,
            4 => Kind::Field,
            5 => Kind::Tail,
            6 => Kind::TailRepair,
            7 => Kind::WordRepair,
            8 => Kind::Table,
            9 => Kind::Encoding,
            10 => Kind::Decoding,
            11 => Kind::SoftDecoding,
            12 => Kind::NewSynchroniser,
            13 => Kind::Push,
            14 => Kind::SoftPush,
            15 => Kind::NewMerger,
            16 => Kind::MergerPush,
            17 => Kind::MergerRelease,
            18 => Kind::Feed,
            19 => Kind::SoftFeed,
            20 => Kind::PackedFeed,
            _ => return Err(UnknownKind(number)),
        })
    }
}
