// Keeps positions in order: finds the place of a frame, puts in one position more, and takes the first out.
ghost use Rattle.std.specs.Prelude.{◌≡◌, ℕ, ◌+◌, ◌-◌, ◌≤◌, ◌<◌, take, drop, get_or, position, nat_le};
ghost use Rattle.bits.specs.Sizes.{most_offset};
ghost use Rattle.merger_rules.specs.Merging.{insert_at, no_position};
ghost use Rattle.merger_rules.specs.States.{below_of};

use merger_rules::Position;

// Finds the first position whose key is not below the lowest one.
fn first_from(positions: &[Position], lowest: u64) -> Option<usize>
    ensures { result ≡ position (λ p. nat_le lowest p.key) positions.now }
{
    positions.iter().position(|p| lowest <= p.key)
}

// Counts the positions, from the first, that lie more than 191 bits below the offset.
pub fn below(positions: [Position; 16], n: usize, offset: u64) -> usize
    requires fact_1 { n ≤ 16 }
    requires fact_2 { ((i : ℕ) → i < n → (get_or positions i no_position).key ≤ most_offset) }
    ensures { (result ≡ below_of offset (take n positions)) × (result ≤ n) }
{
    first_from(&positions[..n], offset.saturating_sub(191)).unwrap_or(n)
}

// Gives the positions with one more at a place.
pub fn with_position(positions: [Position; 16], n: usize, at: usize, p: Position) -> [Position; 16]
    requires { (at ≤ n) × (n < 16) }
    ensures { take (n + 1) result ≡ insert_at at p (take n positions) }
{
    let mut out = positions;
    out.copy_within(at..n, at + 1);
    out[at] = p;
    out
}

// Gives the positions without the first.
pub fn without_first(positions: [Position; 16], n: usize) -> [Position; 16]
    requires { (0 < n) × (n ≤ 16) }
    ensures { take (n - 1) result ≡ drop 1 (take n positions) }
{
    let mut out = positions;
    out.copy_within(1..n, 0);
    out
}
