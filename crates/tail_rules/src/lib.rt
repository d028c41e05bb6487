// What a word's tail means: the code of fourteen bytes, which codeword is near, the tail that is made, and what the calls of `tail` answer and leave.
// specs/Code.antt, Repair.antt, Encode.antt and Calls.antt are what a reader has to believe; Steps.antt and Massey.antt say what the code's steps promise each
// other. There is no code here but the type of a repaired tail; each theorem is the `ensures` of an empty function, so that it cannot vanish.

#![tactic(auto)]

ghost use Rattle.tail_rules.specs.MakingStatements.{EncodeLaws};
ghost use Rattle.tail_rules.specs.RepairStatements.{RepairLaws};

// A repaired tail: in how many bytes it differs from the one that was given, and the codeword. A repair answers with it or with a refusal, which has no tail.
#[derive(Clone, Copy, PartialEq, Eq, Debug)]
pub struct RepairedTail {
    pub changed: usize,
    pub tail: [u8; 14],
}

// The tail that is made is a codeword, and the only one that begins with the six bytes and their CRC-16; the generator has document 01's roots.
pub fn encode_laws()
    ensures { EncodeLaws }
{}

// The repair finds the one codeword near a tail, or refuses where there is none; with six places erased there always is one.
pub fn repair_laws()
    ensures { RepairLaws }
{}
