// Solves by Gauss-Jordan on the fixed six rows of seven bytes, a system that with zeros on the right has only zero as its solution: a pivot is always there.
ghost use Rattle.std.specs.Prelude.{◌≡◌, ◌<◌, ◌≤◌, get_or};
ghost use Rattle.field_rules.specs.Field.{quotient, add_scaled};
ghost use Rattle.tail_rules.specs.Steps.{scale_by, ClearedBy, SwappedRows, PivotAt, Rows, Regular, HasPivot, Eliminated, ColumnOf, Solved};

use field::Tables;

// kept: the rows, a column and the count stay parameters below, since the proof does not close: rows of rows in a field can neither be stored nor lent one by one.
// Adds k times row b to row a.
fn add_scaled(tables: &Tables, a: [u8; 7], k: u8, b: [u8; 7]) -> [u8; 7]
    ensures { result ≡ add_scaled a k b }
{
    let mut out = a;
    tables.add_multiple(&mut out, k, &b);
    out
}

// Divides a row by its entry at `col`, which becomes 1.
fn divided(tables: &Tables, row: [u8; 7], col: usize) -> [u8; 7]
    requires { col < 7 }
    ensures byte { get_or row col 0 < 256 }
    ensures row { result ≡ scale_by (quotient 1 (get_or row col 0)) row }
{
    let k = tables.quotient(1, row[col]);
    let mut out = row;
    // A loop, since `map` of an array executes more instructions.
    for i in 0..7 {
        out[i] = tables.product(k, row[i]);
    }
    out
}

// Finds the first row from `col` on whose entry at `col` is not 0.
fn pivot(m: [[u8; 7]; 6], col: usize, count: usize) -> Option<usize>
    requires fact_1 { col < 6 }
    requires fact_2 { count ≤ 6 }
    ensures { PivotAt m col count result }
{
    for i in col..count {
        if m[i][col] != 0 {
            return Some(i);
        }
    }
    None
}

// Swaps rows i and j.
fn swapped(m: [[u8; 7]; 6], i: usize, j: usize) -> [[u8; 7]; 6]
    requires fact_1 { i < 6 }
    requires fact_2 { j < 6 }
    ensures { SwappedRows m i j result }
{
    let mut out = m;
    out.swap(i, j);
    out
}

// Clears column `col` in every other row: adds to each a multiple of row `col`.
fn clear(tables: &Tables, m: [[u8; 7]; 6], col: usize, count: usize) -> [[u8; 7]; 6]
    requires fact_1 { col < 6 }
    requires fact_2 { count ≤ 6 }
    ensures { ClearedBy m col count result }
{
    let pivot = m[col];
    let mut out = m;
    for i in 0..count {
        if i != col {
            let row = m[i];
            out[i] = add_scaled(tables, row, row[col], pivot);
        }
    }
    out
}

// Turns column `col` into a column of the unit matrix; the solutions stay.
fn eliminated(tables: &Tables, m: [[u8; 7]; 6], col: usize, count: usize) -> [[u8; 7]; 6]
    requires fact_1 { (col < count) × (count ≤ 6) }
    requires fact_2 { Rows count m }
    requires fact_3 { HasPivot count col m }
    ensures { Eliminated count col m result }
{
    let i = pivot(m, col, count).unwrap();
    let mut a = swapped(m, col, i);
    let unit = divided(tables, a[col], col);
    a[col] = unit;
    clear(tables, a, col, count)
}

// Collects the right-hand sides of the first `count` rows.
fn right_sides(m: [[u8; 7]; 6], count: usize) -> [u8; 6]
    requires { count ≤ 6 }
    ensures { ColumnOf count m result }
{
    let mut out = [0u8; 6];
    for i in 0..count {
        let row = m[i];
        // kept: `bits::byte`, since an element of an array of arrays comes without its bound (tried: `m[i][count]`, a row by value, a row lent).
        out[i] = bits::byte(row[count]);
    }
    out
}

// Solves a regular system of `count` rows: once its columns are those of the unit matrix, the right-hand sides are the solution.
pub fn solve(tables: &Tables, m: [[u8; 7]; 6], count: usize) -> [u8; 6]
    requires fact_1 { count ≤ 6 }
    requires fact_2 { Rows count m }
    requires fact_3 { Regular count m }
    ensures { Solved count m result }
{
    let mut a = m;
    for col in 0..count {
        let next = eliminated(tables, a, col, count);
        a = next;
    }
    right_sides(a, count)
}
