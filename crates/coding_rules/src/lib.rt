// What coding means: where a word's bits lie in an envelope and with what they are xored, CRC-16, and what the calls of crate `coding` answer and
// leave. The markers are defined in crate `coding_markers`. There is no code here: each theorem is the `ensures` of an empty function, so that it cannot vanish.

#![tactic(auto)]

ghost use Rattle.coding_rules.specs.Statements.{CallMeaning, CrcMeaning, ScramblingLaws};

// CRC-16 means the remainder of a division of polynomials.
pub fn crc_meaning()
    ensures { CrcMeaning }
{}

// Scrambling and descrambling undo each other.
pub fn scrambling_laws()
    ensures { ScramblingLaws }
{}

// Scrambling and descrambling give their result for the right sizes, and refuse any other with nothing written.
pub fn call_meaning()
    ensures { CallMeaning }
{}
