// Takes a word out of an envelope, and makes the envelope of a word. A word byte is one envelope byte with its bits in the other order, xored with a byte
// of the sequence.
ghost use Rattle.std.specs.Prelude.{◌≡◌, ◌+◌, ◌-◌, ◌*◌, ◌/◌, ◌%◌, ◌<◌, length, get_or};
ghost use Rattle.bits.specs.Bit.{digit, number, tab};
ghost use Rattle.coding_rules.specs.Calls.{sized, size_answer, after_descramble, after_scramble};
ghost use Rattle.coding_markers.specs.Markers.{marker};
ghost use Rattle.coding_rules.specs.Scramble.{descrambled, envelope_byte, scrambled};
ghost use Rattle.coding_rules.specs.Sequence.{turned_byte};

use bits::Refusal;
use coding_markers::MARKERS;

// The sequence that scrambles: word byte k is xored with entry k, which holds the sequence's bits from 8 k on, the first lowest.
static KEYS: [u8; 42] = [
    255, 193, 251, 232, 76, 144, 114, 139, 231, 179, 81, 137, 99, 171, 35, 35, 2, 132, 24, 114,
    170, 97, 47, 59, 81, 168, 229, 55, 73, 251, 201, 202, 12, 24, 83, 44, 253, 69, 227, 154, 230,
    241,
];

// Turns a byte round, as the contracts here have it.
fn turned(x: u8) -> u8
    ensures { result ≡ turned_byte x }
{
    x.reverse_bits()
}

// Turns each byte of an envelope round, those of the markers too: a loop without exceptions, which the compiler does sixteen bytes at a time.
fn all_turned(envelope: &[u8]) -> [u8; 48]
    requires { length envelope.now ≡ 48 }
    ensures { result ≡ tab 48 (λ k. turned_byte (get_or envelope.now k 0)) }
{
    let mut out = [0u8; 48];
    for k in 0..48 {
        out[k] = turned(envelope[k]);
    }
    out
}

// Writes the word in an envelope: 14 bytes from each segment of 16, behind the two of its marker.
fn write_word(envelope: &[u8], word: &mut [u8])
    requires envelope_long { length envelope.now ≡ 48 }
    requires word_long { length word.old ≡ 42 }
    ensures { word.new ≡ descrambled envelope.now }
{
    let bytes = all_turned(envelope);
    for segment in 0..3 {
        for j in 0..14 {
            let k = 14 * segment + j;
            word[k] = bytes[16 * segment + 2 + j] ^ KEYS[k];
        }
    }
}

// Says whether an envelope has its 48 bytes and a word its 42.
fn sized(envelope: &[u8], word: &[u8]) -> bool
    ensures { result ≡ sized envelope.now word.now }
{
    envelope.len() == 48 && word.len() == 42
}

// Writes the word in an envelope into lent memory. Refuses (5) an envelope that is not 48 bytes or a word that is not 42, and then writes nothing.
pub fn descramble(envelope: &[u8], word: &mut [u8]) -> Result<(), Refusal>
    ensures value { result ≡ size_answer envelope.now word.old }
    ensures leaves { word.new ≡ after_descramble envelope.now word.old }
{
    if !sized(envelope, word) {
        return Err(Refusal::Size);
    }
    write_word(envelope, word);
    Ok(())
}

// Writes the envelope that holds a word: in each segment the two bytes of its marker, high byte first, and then 14 of the word's, scrambled.
fn write_envelope(word: &[u8], envelope: &mut [u8])
    requires word_long { length word.now ≡ 42 }
    requires envelope_long { length envelope.old ≡ 48 }
    ensures { envelope.new ≡ scrambled word.now }
{
    for segment in 0..3 {
        let [high, low] = MARKERS[segment].to_be_bytes();
        envelope[16 * segment] = high;
        envelope[16 * segment + 1] = low;
        for j in 0..14 {
            let k = 14 * segment + j;
            envelope[16 * segment + 2 + j] = turned(word[k] ^ KEYS[k]);
        }
    }
}

// Writes the envelope that holds a word into lent memory. Refuses (5) an envelope that is not 48 bytes or a word that is not 42, and then writes nothing.
pub fn scramble(word: &[u8], envelope: &mut [u8]) -> Result<(), Refusal>
    ensures value { result ≡ size_answer envelope.old word.now }
    ensures leaves { envelope.new ≡ after_scramble word.now envelope.old }
{
    if !sized(envelope, word) {
        return Err(Refusal::Size);
    }
    write_envelope(word, envelope);
    Ok(())
}
