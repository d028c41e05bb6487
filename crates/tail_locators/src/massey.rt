// Berlekamp-Massey: finds the shortest locator of a sequence. Crate `tail_rules`, specs/Massey.antt, has the same algorithm on lists; each function here is
// one of its steps.
ghost use Rattle.std.specs.Prelude.{◌≡◌, ◌+◌, ◌<◌, ◌≤◌};
ghost use Rattle.tail_rules.specs.Massey.{state, step, coefficient, run, updated};

use field::Tables;

// Adds k x^gap times the older locator to the locator.
pub(crate) fn corrected(tables: &Tables, loc: [u8; 7], gap: usize, k: u8, old: [u8; 7]) -> [u8; 7]
    requires { gap ≤ 7 }
    ensures { result ≡ updated loc gap k old }
{
    let mut out = loc;
    tables.add_multiple(&mut out[gap..], k, &old);
    out
}

// Sums the discrepancy of the locator at step n, from the highest coefficient down.
pub(crate) fn discrepancy(tables: &Tables, loc: [u8; 7], s: [u8; 6], n: usize) -> u8
    requires { n < 6 }
    ensures { result ≡ coefficient loc s n }
{
    let mut d = 0;
    for i in (0..n + 1).rev() {
        d = tables.product(loc[i], s[n - i]) ^ d;
    }
    d
}

// What goes from step to step: the locator, the one before it last grew, its degree, the steps since it grew, and the discrepancy then.
#[derive(Clone, Copy)]
pub struct State {
    pub loc: [u8; 7],
    pub old: [u8; 7],
    pub degree: usize,
    pub gap: usize,
    pub last: u8,
}

impl State {
    // Takes step n with the discrepancy d: where that is 0 the locator stays, else it is corrected, and grows where it is too short.
    fn step(self, tables: &Tables, d: u8, n: usize) -> State
        requires fact_1 { n < 6 }
        requires fact_2 { self.gap ≤ n + 1 }
        requires fact_3 { self.degree ≤ n }
        ensures { state result.loc result.old result.degree result.gap result.last ≡ step n (state self.loc self.old self.degree self.gap self.last) d }
    {
        let State {
            loc,
            old,
            degree,
            gap,
            last,
        } = self;
        if d == 0 {
            return State {
                loc,
                old,
                degree,
                gap: gap + 1,
                last,
            };
        }
        let k = tables.quotient(d, last);
        let more = corrected(tables, loc, gap, k, old);
        if 2 * degree <= n {
            return State {
                loc: more,
                old: loc,
                degree: n + 1 - degree,
                gap: 1,
                last: d,
            };
        }
        State {
            loc: more,
            old,
            degree,
            gap: gap + 1,
            last,
        }
    }
}

// Finds the shortest locator of the first `len` terms.
pub fn shortest_locator(tables: &Tables, s: [u8; 6], len: usize) -> State
    requires { len ≤ 6 }
    ensures { (state result.loc result.old result.degree result.gap result.last ≡ run s len) × (result.degree ≤ len) }
{
    let one = [1, 0, 0, 0, 0, 0, 0];
    let mut st = State {
        loc: one,
        old: one,
        degree: 0,
        gap: 1,
        last: 1,
    };
    for n in 0..len {
        let d = discrepancy(tables, st.loc, s, n);
        st = st.step(tables, d, n);
    }
    st
}
