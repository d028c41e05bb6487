// Repairs a lent tail of fourteen bytes: tests the erased places, copies the tail out, and writes the repair over it. For the calls of crate `tail`.

#![tactic(auto)]

ghost use Rattle.std.specs.Prelude.{◌≡◌, true, length};
ghost use Rattle.bits.specs.Bit.{Bytes};
ghost use Rattle.tail_rules.specs.Repair.{repair_of};
ghost use Rattle.tail_rules.specs.Calls.{erasable, answer_of, written_over};

use bits::Refusal;
use field::Tables;
use tail_places::is_among;
use tail_repair::repair_by;

// Tells whether these places may be erased: at most six, each at most 13, none given twice.
pub fn may_erase(places: &[u8]) -> bool
    ensures { result ≡ erasable places.now }
{
    if 6 < places.len() {
        return false;
    }
    for (i, place) in places.iter().enumerate() {
        let e = usize::from(*place);
        if 13 < e || is_among(&places[i + 1..], e) {
            return false;
        }
    }
    true
}

// Copies fourteen bytes out.
fn copied(tail: &[u8]) -> [u8; 14]
    requires { length tail.now ≡ 14 }
    ensures { (result ≡ tail.now) × Bytes result }
{
    let mut out = [0u8; 14];
    out.copy_from_slice(tail);
    out
}

// Repairs fourteen lent bytes, which are written only once a codeword has been found.
pub fn repair_lent(tail: &mut [u8], places: &[u8]) -> Result<usize, Refusal>
    requires fact_1 { length tail.old ≡ 14 }
    requires fact_2 { erasable places.now ≡ true }
    ensures value { result ≡ answer_of (repair_of places.now tail.old) }
    ensures leaves { tail.new ≡ written_over tail.old (repair_of places.now tail.old) }
{
    let tables = Tables::new();
    let repaired = repair_by(&tables, copied(tail), places)?;
    tail.copy_from_slice(&repaired.tail);
    Ok(repaired.changed)
}
