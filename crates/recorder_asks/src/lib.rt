// What may be asked of a recording's frames, and how much memory it may need. What is made of frames then is defined in specs/Asks.antt.

#![tactic(auto)]

ghost use Rattle.std.specs.Prelude.{◌≡◌};
ghost use Rattle.recorder_asks.specs.Asks.{need_of, is_speech, is_decoded};

// kept: a value that a caller hands in, by what may not change: `recorder::step` and the promises of the tasks are over it. Inside, `Asking` lays by it.
// Says what is made of frames: their records, untried; their records, decoded with a table; or the lines of their speech.
#[derive(Clone, Copy, PartialEq, Eq)]
pub enum Asked {
    Untried,
    Decoded,
    Speech,
}

// Gives how many bytes what is asked of a push's three frames may need.
pub fn need_of(asked: Asked) -> usize
    ensures { result ≡ need_of asked }
{
    match asked {
        Asked::Untried | Asked::Decoded => 384,
        Asked::Speech => 768,
    }
}

// Tells whether lines of speech are asked.
pub fn is_speech(asked: Asked) -> bool
    ensures { result ≡ is_speech asked }
{
    asked == Asked::Speech
}

// Tells whether records are asked that say what the decoder answers.
pub fn is_decoded(asked: Asked) -> bool
    ensures { result ≡ is_decoded asked }
{
    asked == Asked::Decoded
}
