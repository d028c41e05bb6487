// The protected part of a voice frame: the coordinate table, the checksum, the input bits, the code and its inverse, and where the bits lie
// in a word. Each function gives what the definition of its contract says (crate `protected_rules`). The table's admission is here; the crates
// `protected_input`, `protected_code` and `protected_word` have the rest, which is handed on.
//
// Table admission: document 01's four rules, each a test of its own. No loop ends early: an admitted table is tested to its end in any case, and the
// compiler tests sixteen entries at a time.

#![tactic(auto)]

ghost use Rattle.std.specs.Prelude.{Bool, ◌≡◌, ◌||◌, ℕ, ◌<◌, get_or, ltb, eqb, is_some, IfSome};
ghost use Rattle.bits.specs.Alls.{all_below};
ghost use Rattle.protected_rules.specs.Table.{count, odd_fits, even_fits, each_once, admits};

pub use protected_code::{coded_apart, convolution, inverse, inverse_input};
pub use protected_input::{checksum_in, checksum_of, input_of};
use protected_rules::Table;
pub use protected_word::{front_of, payload_of, protected, write_protected};

// Tells whether a test holds at each number below n.
fn holds_below<F: Fn(usize) -> bool>(n: usize, test: F) -> bool
    requires { (k : ℕ) → k < n → F.pre test k }
    ensures { (t : ℕ → Bool) × ((k : ℕ) → k < n → F.post test k (t k)) × (result ≡ all_below n t) }
{
    let mut all = true;
    for k in 0..n {
        all &= test(k);
    }
    all
}

// Counts how often each number stands in the table.
fn occurrences(entries: &[u8; 188]) -> [u8; 256]
    ensures { (k : ℕ) → k < 256 → get_or result k 0 ≡ count k entries.now }
{
    let mut seen = [0u8; 256];
    for entry in entries {
        seen[usize::from(*entry)] += 1;
    }
    seen
}

// Tells whether every odd entry is below 176.
fn odd_fit(entries: &[u8; 188]) -> bool
    ensures { result ≡ odd_fits entries.now }
{
    holds_below(94, |t| entries[2 * t + 1] < 176)
}

// Tells whether an even entry is below 176, or is 255 and names no coded bit.
fn even_entry(entry: u8) -> bool
    ensures { result ≡ (ltb entry 176 || eqb entry 255) }
{
    entry < 176 || entry == 255
}

// Tells whether every even entry is below 176 or is 255.
fn even_fit(entries: &[u8; 188]) -> bool
    ensures { result ≡ even_fits entries.now }
{
    holds_below(94, |t| even_entry(entries[2 * t]))
}

// Tells whether each number from 0 to 175 stands in the table exactly once.
fn each_once(entries: &[u8; 188]) -> bool
    ensures { result ≡ each_once entries.now }
{
    let seen = occurrences(entries);
    holds_below(176, |k| seen[k] == 1)
}

// Tells whether 188 bytes keep document 01's rules.
fn keeps_rules(entries: &[u8; 188]) -> bool
    ensures { result ≡ admits entries.now }
{
    odd_fit(entries) && even_fit(entries) && each_once(entries)
}

// Makes a table of lent bytes, where they are admitted, their number included.
pub fn table_of(bytes: &[u8]) -> Option<Table>
    ensures admitted { is_some result ≡ admits bytes.now }
    ensures same { IfSome result (λ table. table.entries ≡ bytes.now) }
{
    let Ok(entries) = <&[u8; 188]>::try_from(bytes) else {
        return None;
    };
    if keeps_rules(entries) {
        Some(Table { entries: *entries })
    } else {
        None
    }
}

// Tells whether the table is admitted, its length included.
pub fn admitted(table: &[u8]) -> bool
    ensures { result ≡ admits table.now }
{
    table_of(table).is_some()
}
