// Small steps on numbers, each with the fact that its callers would have to prove anew.
ghost use Rattle.std.specs.Prelude.{◌≡◌, ◌%◌, ◌<◌};
ghost use Rattle.std.specs.Int.Count.{ones};

// Hands a byte back with the fact that it is below 256: an element of an array of arrays comes without it.
pub fn byte(x: u8) -> u8
    ensures { (result ≡ x) × (result < 256) }
{
    x
}

// Gives 1 where a number has an odd count of ones, else 0.
pub fn parity(v: u32) -> u8
    ensures { (result ≡ ones v % 2) × (result < 2) }
{
    (u32::count_ones(v) % 2) as u8
}
