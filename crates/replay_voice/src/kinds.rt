// Answers a case of the kinds 1 to 11, all below the synchroniser, by its kind. The table in force goes on from case to case.
ghost use Rattle.replay_bytes.specs.Answers.{Told};
ghost use Rattle.replay_voice.specs.Kinds.{CodedBy, coded_case, kind_case, table_set};

use replay_bytes::Kind;

// Says the answer's length, where the input fits the kind, and how many bytes the table in force has.
#[derive(Clone, Copy)]
pub struct Answered {
    pub size: Option<usize>,
    pub table: usize,
}

// Keeps a table at the front of the lent memory, where it fits.
fn new_table(table: &mut [u8], bytes: &[u8], out: &mut [u8]) -> Answered
    ensures { CodedBy (table_set table.old bytes.now) table.new out.old out.new result }
{
    let n = bytes.len();
    if table.len() < n {
        return Answered {
            size: None,
            table: 0,
        };
    }
    table[..n].copy_from_slice(bytes);
    Answered {
        size: crate::table(bytes, out),
        table: n,
    }
}

// Answers a case that leaves the table in force as it is. No other kind has cases. It stays a call: inside the loop over the cases the answers of the other
// kinds are cleared for each case.
#[inline(never)]
fn answer(kind: u8, table: &[u8], input: &[u8], out: &mut [u8]) -> Option<usize>
    ensures { Told (kind_case kind table.now input.now) out.old out.new result }
{
    match Kind::try_from(kind).ok()? {
        Kind::Checksum => replay_coding::crc(input, out),
        Kind::Scrambling => replay_coding::scrambled(input, out),
        Kind::Descrambling => replay_coding::descrambled(input, out),
        Kind::Field => replay_coding::field_pair(input, out),
        Kind::Tail => replay_tails::made(input, out),
        Kind::TailRepair => replay_tails::repaired(false, input, out),
        Kind::WordRepair => replay_tails::repaired(true, input, out),
        Kind::Encoding => crate::encoded(table, input, out),
        Kind::Decoding => crate::decoded(table, input, out),
        Kind::SoftDecoding => crate::softly_decoded(table, input, out),
        _ => None,
    }
}

// Answers a case. The table in force has the first `tabled` bytes of the lent memory.
// kept: the kind is a number here, by what may not change: `coded_case` says what each number answers, those that name no kind too.
pub fn coding_case(
    kind: u8,
    table: &mut [u8],
    tabled: usize,
    input: &[u8],
    out: &mut [u8],
) -> Answered
    ensures { CodedBy (coded_case kind table.old tabled input.now) table.new out.old out.new result }
{
    if table.len() < tabled {
        return Answered {
            size: None,
            table: 0,
        };
    }
    if Kind::try_from(kind) == Ok(Kind::Table) {
        return new_table(table, input, out);
    }
    Answered {
        size: answer(kind, &table[..tabled], input, out),
        table: tabled,
    }
}
