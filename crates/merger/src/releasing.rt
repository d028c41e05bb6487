// Takes out a position that is ready, and hands its chosen frame on or passes it over.
ghost use Rattle.std.specs.Prelude.{◌≡◌, ◌<◌, take, drop};
ghost use Rattle.merger_rules.specs.Merging.{view, settle};
ghost use Rattle.merger.specs.States.{view_of, ValidMerger, ReleaseGave};
ghost use Rattle.merger_rules.specs.States.{FairChoice};

use crate::{AfterRelease, Chosen, Freed, Merger, Release, Released};
use merger_steps::{after, snap, without_first};
use sync_rules::Head;

// Gives the merger without its first position.
pub(crate) fn first_out(m: Merger) -> Merger
    requires fact_1 { ValidMerger m }
    requires fact_2 { 0 < m.n }
    ensures { (view_of result ≡ view (drop 1 (take m.n m.positions)) m.last) × ValidMerger result }
{
    Merger {
        n: m.n - 1,
        positions: without_first(m.positions, m.n),
        ..m
    }
}

// Hands on the chosen frame of a position that was taken out, or passes it over.
pub(crate) fn give(m: Merger, c: Option<Chosen>, freed: Freed) -> AfterRelease
    requires fact_1 { ValidMerger m }
    requires fact_2 { FairChoice c }
    ensures { ReleaseGave (settle c freed (take m.n m.positions) m.last) result }
{
    if let Some(Chosen { frame, alternate }) = c {
        let offset = snap(m.last, frame.figures.offset);
        if after(m.last, offset) {
            return AfterRelease {
                answer: Released::Frame(Release {
                    figures: Head {
                        offset,
                        ..frame.figures
                    },
                    number: frame.number,
                    alternate,
                }),
                freed,
                merger: Merger {
                    last: Some(offset),
                    ..m
                },
            };
        }
    }
    AfterRelease {
        answer: Released::PassedOver,
        freed,
        merger: m,
    }
}
