// What GF(256) over 0x11d means: product, quotient and powers of 2 as polynomials over GF(2), with no table. The crate `field` has the code.
// There is no code here: the theorem is the `ensures` of an empty function, so that it cannot vanish.

#![tactic(auto)]

ghost use Rattle.field_rules.specs.Statements.{FieldLaws};

// The definitions are the textbook's field: specs/Statements.antt says so in one statement.
pub fn field_laws()
    ensures { FieldLaws }
{}
