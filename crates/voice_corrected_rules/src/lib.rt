// How many bits the hard decoder corrects at most. There is no code here: an empty function carries the theorem, so that it cannot vanish.

#![tactic(auto)]

ghost use Rattle.voice_corrected_rules.specs.Statements.{FewCorrected};

// What the hard decoder accepts it has corrected in at most 32 bits, as many as a journal's record can say.
pub fn few_corrected()
    ensures { FewCorrected }
{}
