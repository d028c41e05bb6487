// The markers: what they are (specs/Markers.antt), and the same as code has it. Crate `coding` passes them on; the synchroniser, which needs nothing else of
// the coding, names this crate.

#![tactic(auto)]

ghost use Rattle.std.specs.Prelude.{◌≡◌};
ghost use Rattle.coding_markers.specs.Markers.{the_markers};

// The marker that opens each of an envelope's three segments.
pub static MARKERS: [u16; 3] = [0x3d22, 0xe867, 0xe867];

// Gives the markers as a value.
pub fn markers() -> [u16; 3]
    ensures { result ≡ the_markers }
{
    MARKERS
}
