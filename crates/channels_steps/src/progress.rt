// Where a writing stands after a call.
ghost use Rattle.std.specs.Prelude.{◌≡◌, ◌<◌, ◌-◌};
ghost use Rattle.channels_steps.specs.Told.{Within};
ghost use Rattle.channels_steps.specs.Progresses.{Advances, taken_of};

use crate::calls::Call;
use std::io::Error;

// Where a writing stands, with the bytes that were taken so far: some are left; all were taken; the last call took none; it failed, for this reason.
#[derive(Clone, Copy)]
pub enum Progress {
    Left(usize),
    Whole(usize),
    Stuck(usize),
    Failed(usize, Error),
}

// Tells where a writing of `size` bytes, of which `done` were taken, stands after a call.
pub fn advanced(size: usize, done: usize, call: Call) -> Progress
    requires fact_1 { done < size }
    requires fact_2 { Within (size - done) call }
    ensures { Advances size done call result }
{
    match call {
        Call::Moved(0) => Progress::Stuck(done),
        Call::Moved(n) if n < size - done => Progress::Left(done + n),
        Call::Moved(n) => Progress::Whole(done + n),
        Call::Again | Call::Wait => Progress::Left(done),
        Call::Failed(reason) => Progress::Failed(done, reason),
    }
}

// Gives how many bytes were taken.
pub fn taken_of(stands: Progress) -> usize
    ensures { result ≡ taken_of stands }
{
    match stands {
        Progress::Left(n) | Progress::Whole(n) | Progress::Stuck(n) | Progress::Failed(n, _) => n,
    }
}
