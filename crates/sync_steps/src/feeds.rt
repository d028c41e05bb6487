// Many pushes into lent rings: the loop of every feed.
ghost use Rattle.std.specs.Prelude.{◌≡◌, length};
ghost use Rattle.sync_numbers.specs.View.{Steady, Few, Rings, view_of};
ghost use Rattle.sync_steps.specs.Feeds.{FedInto, fed_of};
ghost use Rattle.sync_inputs.specs.Inputs.{inputs_of};

use bits::Refusal;
use sync_frames::{Drained, drain, nothing};
use sync_inputs::{Source, answer_to, push_of};
use sync_numbers::Numbers;
use sync_pushes::{brought, enough, search};
use sync_rules::MOST_HELD;

// What many pushes into lent rings came to: the answer to the last, how many were made, and the frames of the last.
#[derive(Clone, Copy)]
pub struct Into {
    pub answer: Result<(), Refusal>,
    pub took: usize,
    pub drained: Drained,
}

// Makes the pushes of a source, up to the first that sends frames or is refused. Most of them only bring their bits, or only search: no answer is made for those.
pub fn feed_into(
    bits: &mut [u8; MOST_HELD],
    reliabilities: &mut [u8; MOST_HELD],
    k: Numbers,
    source: Source<'_>,
    room: &mut [u8],
) -> Into
    requires fact_1 { Steady k }
    requires fact_2 { Few k }
    requires fact_3 { Rings bits.old reliabilities.old }
    ensures { FedInto bits.new reliabilities.new room.old room.new (fed_of (length room.old) (inputs_of source.entry) (view_of bits.old reliabilities.old k)) result }
{
    let mut numbers = k;
    let mut took = 0;
    // kept: a `loop` over pushes, which counts no index by itself: `took` goes on only with a push that was taken.
    loop {
        let Some(given) = push_of(source, took) else {
            return Into {
                answer: Ok(()),
                took,
                drained: nothing(numbers),
            };
        };
        let answer = answer_to(numbers.figures.taken, given.dibit, room.len());
        if answer.is_err() {
            return Into {
                answer,
                took,
                drained: nothing(numbers),
            };
        }
        numbers = brought(&mut *bits, &mut *reliabilities, numbers, given);
        took += 1;
        if enough(numbers) {
            numbers = search(&*bits, numbers);
            if enough(numbers) {
                let drained = drain(&*bits, &*reliabilities, numbers, &mut *room);
                numbers = drained.numbers;
                if drained.count != 0 {
                    return Into {
                        answer,
                        took,
                        drained,
                    };
                }
            }
        }
    }
}
