// Searches one place among those given.
ghost use Rattle.std.specs.Prelude.{◌≡◌};
ghost use Rattle.tail_rules.specs.Code.{among};

// Tells whether x is among the numbers.
pub fn is_among(es: &[u8], x: usize) -> bool
    ensures { result ≡ among x es.now }
{
    es.iter().any(|e| x == usize::from(*e))
}
