// Frames as bytes of a case's answer (docs/REPLAY.md): a frame's head, and the frames of a push with their slots of the room.

#![tactic(auto)]

ghost use Rattle.std.specs.Prelude.{◌≡◌, cond, ◌++◌, ◌<◌, take, drop};
ghost use Rattle.sync_rules.specs.Sizes.{slot_size};
ghost use Rattle.replay_bytes.specs.Bytes.{Put};
ghost use Rattle.replay_frames.specs.Frames.{frames_bytes, head_bytes, slot_bytes};

use replay_bytes::{put_all, put_flag, put_number, put_three};
use sync_rules::{Head, SLOT_SIZE};

// Tells how many bytes of a frame's slot are put: the envelope, and the reliabilities once a soft push has been made.
fn slot_bytes(soft: bool) -> usize
    ensures { result ≡ cond soft slot_size 48 }
{
    if soft { SLOT_SIZE } else { 48 }
}

// Puts n bytes from `from` on, or as many as there are.
fn put_part(out: &mut [u8], to: usize, bytes: &[u8], from: usize, n: usize) -> usize
    ensures { Put out.old to (take n (drop from bytes.now)) out.new result }
{
    let rest = bytes.get(from..).unwrap_or(&[]);
    put_all(out, to, &rest[..n.min(rest.len())])
}

// Puts what a synchroniser says of a frame.
pub fn put_head(out: &mut [u8], to: usize, head: Head) -> usize
    ensures { Put out.old to (head_bytes head) out.new result }
{
    let a = put_number(&mut *out, to, head.offset, 8);
    let b = put_flag(&mut *out, a, head.matched);
    let c = put_number(&mut *out, b, u64::from(head.errors), 1);
    let moves = head.moves;
    put_three(out, c, moves.front, moves.second, moves.third)
}

// Puts a frame's head and its slot of the room.
fn put_frame(out: &mut [u8], to: usize, head: Head, room: &[u8], k: usize, soft: bool) -> usize
    requires { k < 3 }
    ensures { Put out.old to (head_bytes head ++ slot_bytes soft room.now k) out.new result }
{
    let next = put_head(&mut *out, to, head);
    put_part(out, next, room, SLOT_SIZE * k, slot_bytes(soft))
}

// Puts how many frames went out, and the frames one behind the other.
pub fn put_frames(
    out: &mut [u8],
    to: usize,
    count: usize,
    heads: [Head; 3],
    room: &[u8],
    soft: bool,
) -> usize
    ensures { Put out.old to (frames_bytes count heads soft room.now) out.new result }
{
    let mut length = put_number(&mut *out, to, count as u64, 1);
    for k in 0..count.min(heads.len()) {
        length = put_frame(&mut *out, length, heads[k], room, k, soft);
    }
    length
}
