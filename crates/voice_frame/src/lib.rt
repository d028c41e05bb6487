// The voice frame's encoder and its hard decoder. Their answers are defined in the crate `voice_rules`; here is the code that gives them.

#![tactic(auto)]

ghost use Rattle.std.specs.Prelude.{◌≡◌, length};
ghost use Rattle.voice_rules.specs.Calls.{encode_answer, encode_leaves, decode_answer};
ghost use Rattle.voice_rules.specs.Encoded.{encoded_word};

use bits::Refusal;
use field::Tables;
use protected_rules::Table;
use voice_rules::Speech;
use voice_speech::Received;
use voice_words::together;

// ---- encoding

// Makes the word of a payload.
#[tactic(auto, unfolding(voice_rules::specs::Encoded::encoded_word, voice_rules::specs::Encoded::joined))]
fn encode_word(table: &Table, payload: &[u8], flag: u8) -> [u8; 42]
    requires { length payload.now ≡ 20 }
    ensures { result ≡ encoded_word table.now.entries payload.now flag }
{
    let code = protected::convolution(table, &protected::input_of(payload));
    let front = protected::front_of(payload);
    together(&Tables::new(), &front, &code, flag)
}

// Writes the envelope of a payload of 158 bits, the top two bits of byte 19 ignored: refusal 5 for a size, then 4 for the table.
#[tactic(auto, using(crate::proofs::Answers::size_answer_lem, crate::proofs::Answers::size_leaves, crate::proofs::Answers::short_payload, crate::proofs::Answers::short_envelope))]
pub fn encode(
    table: &[u8],
    payload: &[u8],
    alternate: bool,
    envelope: &mut [u8],
) -> Result<(), Refusal>
    ensures value { result ≡ encode_answer table.now payload.now envelope.old }
    ensures leaves { envelope.new ≡ encode_leaves table.now payload.now alternate envelope.old }
{
    if payload.len() != 20 || envelope.len() != 48 {
        return Err(Refusal::Size);
    }
    let Some(table) = protected::table_of(table) else {
        return Err(Refusal::Table);
    };
    let word = encode_word(&table, payload, u8::from(alternate));
    coding::scramble(&word, envelope)
}

// ---- decoding

// Decodes an envelope by the hard stages: refusal 5 for the size, then 4 for the table, then 6 where no stage accepts.
#[tactic(auto, using(voice_speech::proofs::Answering::answer_told), unfolding(voice_rules::specs::Calls::decode_answer))]
pub fn decode(table: &[u8], envelope: &[u8]) -> Result<Speech, Refusal>
    ensures { result ≡ decode_answer table.now envelope.now }
{
    let received = Received::open(table, envelope)?;
    voice_hard::hard(&received).ok_or(Refusal::NoSpeech)
}
