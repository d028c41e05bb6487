// What the protected part of a voice frame means: the coordinate table, the checksum, the input bits, the code and its inverse, and where the bits lie in a
// word. There is no code here but the types of an admitted table and of bits; each theorem is the `ensures` of an empty function, so that it cannot vanish.
// The crate `protected` names the code that follows these definitions.

#![tactic(auto)]

ghost use Rattle.bits.specs.Bit.{Bits};
ghost use Rattle.protected_rules.specs.OneProof.{Admitted_prop, Bits_prop};
ghost use Rattle.protected_rules.specs.Table.{Admitted};
ghost use Rattle.protected_rules.specs.Statements.{AdmissionMeaning, ChecksumMeaning, CodeMeaning, InputMeaning, WordMeaning};

// Picks those of a step's nine bits whose parity goes to the table's even entry, as specs/Convolution.antt has it.
pub const EVEN_MASK: u32 = 0x1af;

// Picks those of a step's nine bits whose parity goes to the table's odd entry.
pub const ODD_MASK: u32 = 0x11d;

// A coordinate table that keeps document 01's rules. `protected::table_of` makes it of lent bytes.
#[derive(Clone, Copy)]
pub struct Table {
    pub entries: [u8; 188],
    pub ghost admitted: { Admitted entries } by { Admitted_prop entries },
}

// Bits, one to a byte: 94 are an input, 176 are coded.
#[derive(Clone, Copy)]
pub struct BitArray<const N: usize> {
    pub bits: [u8; N],
    pub ghost each: { Bits bits } by { Bits_prop bits },
}

// The checksum is the remainder of a division of polynomials.
pub fn checksum_meaning()
    ensures { ChecksumMeaning }
{}

// The input bits of a payload are those that document 01 lists.
pub fn input_meaning()
    ensures { InputMeaning }
{}

// Each coded bit is a sum of input bits, those of its generator; the inverse filter finds what was coded.
pub fn code_meaning()
    ensures { CodeMeaning }
{}

// The coded bits and the payload lie in a word where document 01 says.
pub fn word_meaning()
    ensures { WordMeaning }
{}

// The test admits exactly the tables that keep document 01's rules.
pub fn admission_meaning()
    ensures { AdmissionMeaning }
{}
