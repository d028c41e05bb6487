// Makes a lent tail: copies its first six bytes out, and writes the tail made of them over it.
ghost use Rattle.std.specs.Prelude.{◌≡◌, length, take};
ghost use Rattle.tail_rules.specs.Encode.{tail_of};

use crate::by_value::tail_by;
use field::Tables;

// Copies the first six bytes of a tail out.
fn six(tail: &[u8]) -> [u8; 6]
    requires { length tail.now ≡ 14 }
    ensures { result ≡ take 6 tail.now }
{
    let mut out = [0u8; 6];
    out.copy_from_slice(&tail[..6]);
    out
}

// Makes fourteen lent bytes the tail of their first six.
pub(crate) fn make_tail(tail: &mut [u8])
    requires { length tail.old ≡ 14 }
    ensures { tail.new ≡ tail_of (take 6 tail.old) }
{
    let made = tail_by(&Tables::new(), six(tail));
    tail.copy_from_slice(&made);
}
