// States what comes of whole streams in the merger: of two on one grid, and of one alone whatever its slips. Nothing runs here.
//
// Read specs/Grids.antt and specs/Streams.antt for what streams are, specs/Statements.antt for what is proved of them: each theorem is the `ensures` of
// an empty function, so that it cannot vanish. What the merger answers is in the crate merger_rules.

#![tactic(auto)]

ghost use Rattle.std.specs.Prelude.{List, ℕ};
ghost use Rattle.merger_rules.specs.Scripts.{Call};
ghost use Rattle.merger_stream_rules.specs.Grids.{OnGrid};
ghost use Rattle.merger_stream_rules.specs.Statements.{OneGrid, NothingLost, OneStream};

// Frames of both streams on one grid: what comes out is what was taken in.
pub fn one_grid()
    ensures { (g : ℕ) (calls : List Call) → OnGrid g calls → OneGrid calls }
{}

// Streams that keep their promise lose nothing on one grid.
pub fn nothing_lost()
    ensures { NothingLost }
{}

// One stream alone loses nothing but what lies exactly half a frame off the grid.
pub fn one_stream()
    ensures { OneStream }
{}
