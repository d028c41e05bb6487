// What a case of docs/REPLAY.md answers, of the kinds 13, 14 and 18 to 20: the synchroniser's pushes and feeds.
// The answer's bytes go into lent memory; the synchroniser goes in and comes back by value.

#![tactic(auto)]

ghost use Rattle.sync.specs.View.{ValidSynchroniser, view};
ghost use Rattle.replay_sync.specs.Kinds.{Turned, turn_of};
ghost use Rattle.replay_sync.specs.Streams.{ToldBy, fed_case, fed_packed_case, fed_soft_case, push_case, pushed_case, soft_push};

use replay_bytes::{Kind, at, pair};
pub use replay_pushes::Synchronised;
use replay_pushes::{put_fed, put_pushed};
use sync::Synchroniser;

// Answers kind 13, a push: a dibit, and perhaps the room's size.
pub fn pushed(s: Synchroniser, input: &[u8], room: &mut [u8], out: &mut [u8]) -> Synchronised
    requires { ValidSynchroniser s }
    ensures { ToldBy s (pushed_case room.old input.now (view s)) room.new out.old out.new result }
{
    if input.len() == 3 {
        let size = pair(at(input, 1), at(input, 2));
        if room.len() < size {
            return Synchronised {
                size: None,
                sync: s,
            };
        }
        let p = s.push(at(input, 0), &mut room[0..size]);
        return put_pushed(out, 0, p, &*room);
    }
    let p = s.push(at(input, 0), &mut *room);
    put_pushed(out, 0, p, &*room)
}

// Answers kind 14, a soft push: a dibit and two reliabilities.
pub fn pushed_soft(s: Synchroniser, input: &[u8], room: &mut [u8], out: &mut [u8]) -> Synchronised
    requires { ValidSynchroniser s }
    ensures { ToldBy s (push_case room.old (soft_push input.now) (view s)) room.new out.old out.new result }
{
    let p = s.push_soft(at(input, 0), at(input, 1), at(input, 2), &mut *room);
    put_pushed(out, 0, p, &*room)
}

// Answers kind 18, a feed: dibits.
pub fn fed(s: Synchroniser, input: &[u8], room: &mut [u8], out: &mut [u8]) -> Synchronised
    requires { ValidSynchroniser s }
    ensures { ToldBy s (fed_case room.old input.now (view s)) room.new out.old out.new result }
{
    let f = s.feed(input, &mut *room);
    put_fed(out, f, &*room)
}

// Answers kind 19, a soft feed: how many dibits, the dibits, and their reliabilities.
pub fn fed_soft(s: Synchroniser, input: &[u8], room: &mut [u8], out: &mut [u8]) -> Synchronised
    requires { ValidSynchroniser s }
    ensures { ToldBy s (fed_soft_case room.old input.now (view s)) room.new out.old out.new result }
{
    let middle = 2 + pair(at(input, 0), at(input, 1));
    if input.len() < middle {
        return Synchronised {
            size: None,
            sync: s,
        };
    }
    let f = s.feed_soft(&input[2..middle], &input[middle..], &mut *room);
    put_fed(out, f, &*room)
}

// Answers kind 20, a packed feed: the first dibit's number, and packed dibits.
pub fn fed_packed(s: Synchroniser, input: &[u8], room: &mut [u8], out: &mut [u8]) -> Synchronised
    requires { ValidSynchroniser s }
    ensures { ToldBy s (fed_packed_case room.old input.now (view s)) room.new out.old out.new result }
{
    if input.len() < 2 {
        return Synchronised {
            size: None,
            sync: s,
        };
    }
    let f = s.feed_packed(&input[2..], pair(at(input, 0), at(input, 1)), &mut *room);
    put_fed(out, f, &*room)
}

// Answers a case by its kind, of 12 to 14 and 18 to 20. A case of another kind leaves the synchroniser as it is, and the size of its answer is handed on.
// kept: the kind is a number here, by what may not change: `turn_of` says what each number answers, those that name no kind too.
pub fn synchroniser_case(
    kind: u8,
    size: Option<usize>,
    s: Synchroniser,
    input: &[u8],
    room: &mut [u8],
    out: &mut [u8],
) -> Synchronised
    requires { ValidSynchroniser s }
    ensures turned { Turned (turn_of kind room.old input.now (view s)) s size room.old room.new out.old out.new result }
    ensures sound { ValidSynchroniser result.sync }
{
    // where the arms' answers are joined behind the match, the memory for them is cleared for each case
    let mut after = Synchronised { size, sync: s };
    match Kind::try_from(kind) {
        Ok(Kind::NewSynchroniser) => {
            after = Synchronised {
                size: Some(0),
                sync: Synchroniser::new(),
            };
        }
        Ok(Kind::Push) => after = pushed(s, input, room, out),
        Ok(Kind::SoftPush) => after = pushed_soft(s, input, room, out),
        Ok(Kind::Feed) => after = fed(s, input, room, out),
        Ok(Kind::SoftFeed) => after = fed_soft(s, input, room, out),
        Ok(Kind::PackedFeed) => after = fed_packed(s, input, room, out),
        _ => {}
    }
    after
}
