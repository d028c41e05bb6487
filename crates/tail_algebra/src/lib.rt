// Reed-Solomon over any field of characteristic 2: proofs only, in proofs/. Read them in the order of proofs/Lib.antt: Fields (the laws),
// Vandermonde (weights whose first moments vanish are zero), Weights (there are weights with any first moments), Polynomial (no more roots
// than the degree), Massey and Locate (what Berlekamp-Massey finds), Word (minimum distance; at most one codeword is near), Elimination and
// System (Gauss-Jordan, and that the repair's system never lacks a pivot), Erasures and Complete (Forney's syndromes, the root search, and
// that a word near a codeword passes every test of the repair), Bytes and Low (GF(256) is such a field, for any numbers).

#![tactic(auto)]
