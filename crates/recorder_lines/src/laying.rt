// Puts the lines of a frame into lent memory, behind what is there.
ghost use Rattle.std.specs.Prelude.{◌≡◌, ℕ, ◌+◌, ◌*◌};
ghost use Rattle.recorder_lines.specs.Wants.{making_of};
ghost use Rattle.recorder_lines.specs.Laws.{wanted_sequential, wanted_three};

use lines_laying::{Wanted, put_line, wanted_gap, wanted_line};
use recorder_rules::Laid;
use recorder_steps::Lays;
use sync_rules::Head;

// How many bytes the lines of a push's three frames may need, with those of the gaps before them: 256 for each frame.
const LINES_SIZE: usize = 768;

// The lines of frames: those of a listing, or those of the slips.
#[derive(Clone, Copy)]
pub struct Lines {
    pub wanted: Wanted,
}

impl Lays for Lines {
    ghost making = { λ it. making_of it.wanted };

    ghost share = { λ it. 256 };

    fn need(&self) -> usize {
        LINES_SIZE
    }

    // Lays the line of the gap before a frame, and its own. Its envelope is not read.
    fn lay_frame(&self, before: Laid, head: Head, _envelope: &[u8], out: &mut [u8]) -> Laid {
        let gap = wanted_gap(self.wanted, before.earlier, head.offset);
        let behind = put_line(gap, before.size, &mut *out);
        let line = wanted_line(self.wanted, head);
        Laid {
            size: put_line(line, behind, out),
            accepted: before.accepted,
            earlier: Some(head.offset),
        }
    }

    ghost sequential = { λ it. wanted_sequential it.wanted };

    ghost three = { λ it. wanted_three it.wanted };
}
