// Demands 1 and 2 of the calls of the voice frame themselves: each function makes public calls with what it is given and promises what they answer
// and leave in lent memory. The contracts are in crates/demands/specs, Demand1.antt and Demand2.antt.

#![tactic(auto)]

ghost use Rattle.std.specs.Prelude.{true, ◌≡◌};
ghost use Rattle.protected_rules.specs.Table.{Admitted};
ghost use Rattle.voice_rules.specs.Hard.{decoded_word};
ghost use Rattle.voice_rules.specs.Soft.{softly_decoded_word};
ghost use Rattle.demands.specs.Demand1.{EncodingRefuses, DecodingRefuses};
ghost use Rattle.demands.specs.Demand2.{EncodedAndDecoded, DecodedAndEncoded};

use bits::Refusal;
use voice_rules::{Speech, payload_in};

// ---- demand 1

// Says yes exactly where document 01's rules admit the table.
fn admitted(table: &[u8]) -> bool
    ensures { (result ≡ true → Admitted table.now) × (Admitted table.now → result ≡ true) }
{
    protected::admitted(table)
}

// Tests 5, the sizes of payload and envelope, then 4, the table; a refused call leaves the envelope as it was.
fn encode(table: &[u8], payload: &[u8], alternate: bool, envelope: &mut [u8]) -> Result<(), Refusal>
    ensures { EncodingRefuses table.now payload.now envelope.old result envelope.new }
{
    voice_frame::encode(table, payload, alternate, envelope)
}

// Tests 5, the envelope's size, then 4, the table, then 6, whether a hard stage accepts; a refused call gives no payload.
fn decode(table: &[u8], envelope: &[u8]) -> Result<Speech, Refusal>
    ensures { DecodingRefuses table.now envelope.now (decoded_word table.now) result }
{
    voice_frame::decode(table, envelope)
}

// Tests 5, the envelope's size, then 4, the table, then 6, whether a hard stage or soft decoding accepts; a refused call gives no payload.
fn decode_soft(table: &[u8], envelope: &[u8], reliabilities: &[u8]) -> Result<Speech, Refusal>
    ensures { DecodingRefuses table.now envelope.now (λ word. softly_decoded_word table.now word reliabilities.now) result }
{
    voice_soft::decode_soft(table, envelope, reliabilities)
}

// ---- demand 2: calls made one after the other, with their whole answer and all that they leave in lent memory

// Encodes a payload into the lent envelope, and decodes it from there.
pub fn encode_and_decode(
    table: &[u8],
    payload: &[u8],
    alternate: bool,
    envelope: &mut [u8],
) -> Result<Speech, Refusal>
    ensures { EncodedAndDecoded table.now payload.now alternate envelope.old envelope.new result }
{
    voice_rules::round_trip();
    let _ = voice_frame::encode(table, payload, alternate, &mut *envelope);
    voice_frame::decode(table, envelope)
}

// Decodes an envelope, and encodes its payload with either flag into two further envelopes.
pub fn decode_and_encode(
    table: &[u8],
    envelope: &[u8],
    plain: &mut [u8],
    other: &mut [u8],
) -> Result<Speech, Refusal>
    ensures { DecodedAndEncoded table.now envelope.now plain.old other.old plain.new other.new result }
{
    voice_rules::exact_distance();
    let decoded = voice_frame::decode(table, envelope);
    let payload = payload_in(decoded);
    let _ = voice_frame::encode(table, &payload, false, plain);
    let _ = voice_frame::encode(table, &payload, true, other);
    decoded
}
