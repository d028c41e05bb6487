// Measures distances: counts ones in an xor, or bytes that differ.
ghost use Rattle.std.specs.Prelude.{◌≡◌, ℕ, ◌+◌, ◌*◌, ◌<◌, ◌≤◌};
ghost use Rattle.bits.specs.Bit.{sum};
ghost use Rattle.voice_rules.specs.Candidate.{bits_apart, bytes_apart, mode_apart};

// Sums what a measure gives for each of n places, at most 8 for each.
pub fn summed<F: Fn(usize) -> u32>(n: usize, measure: F) -> u32
    requires few { n ≤ 42 }
    requires callable { (i : ℕ) → i < n → F.pre measure i }
    requires small { (i d : ℕ) → i < n → F.post measure i d → d ≤ 8 }
    ensures { (f : ℕ → ℕ) × ((i : ℕ) → i < n → F.post measure i (f i)) × (result ≡ sum n f) × (result ≤ 8 * n) }
{
    let mut total = 0;
    for i in 0..n {
        total += measure(i);
    }
    total
}

// Counts the bits in which n bytes from a byte on differ.
#[tactic(auto, unfolding(voice_rules::specs::Candidate::bits_apart))]
pub fn bits_apart(a: &[u8; 42], b: &[u8; 42], from: usize, n: usize) -> u32
    requires { from + n ≤ 42 }
    ensures { (result ≡ bits_apart a.now b.now from n) × (result ≤ 336) }
{
    summed(n, |i| (a[from + i] ^ b[from + i]).count_ones())
}

// Counts how many of n bytes from a byte on differ.
#[tactic(auto, unfolding(voice_rules::specs::Candidate::bytes_apart))]
pub fn bytes_apart(a: &[u8; 42], b: &[u8; 42], from: usize, n: usize) -> u32
    requires { from + n ≤ 42 }
    ensures { result ≡ bytes_apart a.now b.now from n }
{
    summed(n, |i| u32::from(a[from + i] != b[from + i]))
}

// kept: the flag is a number here and where it is put, by what may not change: `mode_apart`, `with_mode` and `joint_trial` say what every byte as a flag gives.
// Counts the bits of bytes 32 and 33 that differ from 0x80 and the flag.
#[tactic(auto, unfolding(voice_rules::specs::Candidate::mode_apart))]
pub fn mode_apart(word: &[u8; 42], flag: u8) -> u32
    ensures { result ≡ mode_apart word.now flag }
{
    (word[32] ^ 0x80).count_ones() + (word[33] ^ flag).count_ones()
}
