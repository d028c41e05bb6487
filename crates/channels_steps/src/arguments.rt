// Reads a program's arguments.
ghost use Rattle.std.specs.Prelude.{IfSome};
ghost use Rattle.io.specs.Counts.{IsPrefixLen};

use std::env::FillError;
use std::rt::Env;

// Copies argument i, counted from the program's name, to the front of lent memory, and gives how many bytes it has: none where the memory does not hold
// it. It gives nothing where there are not so many arguments.
pub fn argument<V: Env>(env: &V, i: usize, buf: &mut [u8]) -> Option<usize>
    ensures { IfSome result (λ n. IsPrefixLen n buf.new) }
{
    match env.arg(i, &mut *buf) {
        Ok(n) => Some(n),
        Err(FillError::TooLong) => Some(0),
        Err(FillError::NotPresent) => None,
    }
}

// Tells whether there is an argument i.
pub fn has_argument<V: Env>(env: &V, i: usize) -> bool {
    argument(env, i, &mut [0u8; 1]).is_some()
}
