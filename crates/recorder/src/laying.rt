// Lays what is asked of a frame into lent memory, behind what is there.
ghost use Rattle.std.specs.Prelude.{◌≡◌, ℕ, ◌*◌};
ghost use Rattle.recorder_asks.specs.Asks.{making_of, share_of};
ghost use Rattle.recorder_asks.proofs.Making.{asked_sequential, asked_three};

use recorder_asks::{Asked, need_of};
use recorder_rules::Laid;
use recorder_steps::Lays;
use sync_rules::Head;

// What is asked of frames, and the table that they are decoded with, which is not looked at where they stay untried.
#[derive(Clone, Copy)]
pub struct Asking<'a> {
    pub asked: Asked,
    pub table: &'a [u8],
}

impl<'a> Lays for Asking<'a> {
    ghost making = { λ it. making_of it.asked it.table.now };

    ghost share = { λ it. share_of it.asked };

    fn need(&self) -> usize {
        need_of(self.asked)
    }

    fn lay_frame(&self, before: Laid, head: Head, envelope: &[u8], out: &mut [u8]) -> Laid {
        recorder_frames::lay_frame(self.asked, before, head, envelope, self.table, out)
    }

    ghost sequential = { λ it. asked_sequential it.asked it.table.now };

    ghost three = { λ it. asked_three it.asked it.table.now };
}
