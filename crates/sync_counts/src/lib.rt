// What is counted in the figures of a synchroniser beside its frames: dibits taken, and bits passed in a search. The definitions of the same names are in
// Figures.antt of the crate `sync_rules`. And what is made of the figures: the slips followed and the net slip.

#![tactic(auto)]

ghost use Rattle.std.specs.Prelude.{◌≡◌, ◌+◌, ◌*◌, ◌^◌, ◌<◌};
ghost use Rattle.std.proofs.Math.IntN.{sub_ℕ};
ghost use Rattle.sync_rules.specs.Sizes.{most_dibits};
ghost use Rattle.sync_rules.specs.Figures.{dibit_taken, bits_passed};

use sync_rules::StreamFigures;

// Counts a dibit, of a soft push or a hard one.
pub fn dibit_taken(figures: StreamFigures, soft: bool) -> StreamFigures
    requires { figures.taken < most_dibits }
    ensures { result ≡ dibit_taken soft figures }
{
    StreamFigures {
        taken: figures.taken + 1,
        soft: figures.soft || soft,
        ..figures
    }
}

// Counts bits passed in a search, which found a lock or did not.
pub fn bits_passed(figures: StreamFigures, bits: u64, found: bool) -> StreamFigures
    requires { figures.clock + bits < 2 ^ 64 }
    ensures { result ≡ bits_passed bits found figures }
{
    StreamFigures {
        clock: figures.clock + bits,
        failures: if found { 0 } else { figures.failures },
        locked: found,
        ..figures
    }
}

// Counts the slips followed, to a later symbol and to an earlier one.
pub fn slips_of(figures: StreamFigures) -> u64
    requires { (figures.later < 2 ^ 61) × (figures.earlier < 2 ^ 61) }
    ensures { result ≡ figures.later + figures.earlier }
{
    figures.later + figures.earlier
}

// Gives a - b with its sign.
fn difference(a: u64, b: u64) -> i64
    requires fact_1 { a < 2 ^ 62 }
    requires fact_2 { b < 2 ^ 62 }
    ensures { result ≡ sub_ℕ a b }
{
    a as i64 - b as i64
}

// Gives the signed net slip: two bits for each slip to a later symbol, less two for each to an earlier one.
pub fn net_slip_of(figures: StreamFigures) -> i64
    requires { (figures.later < 2 ^ 61) × (figures.earlier < 2 ^ 61) }
    ensures { result ≡ sub_ℕ (2 * figures.later) (2 * figures.earlier) }
{
    difference(2 * figures.later, 2 * figures.earlier)
}
