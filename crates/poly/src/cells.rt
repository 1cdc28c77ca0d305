// The value of a box, from the falling products of a point's coordinates in a table. The sub-boxes of the last variable lie one after the other, so that the
// walk over the cells is a recursion over the last variable and lends on parts.
ghost use Rattle.std.specs.Prelude.{◌≡◌, ◌*◌, ◌%◌, ◌^◌, ◌≤◌, length};
ghost use Rattle.meaning.specs.Tables.{at};
ghost use Rattle.meaning.specs.Sums.{sum};
ghost use Rattle.poly.specs.Shapes.{Shaped, HasValue};

// The sum, modulo 2^64, of the coefficients of a line, each times the falling product to its exponent. `two_adic_solver` has such a sum too: one function for
// both would need a place below the two crates and save three lines. The loop has an index, which its invariant speaks of: a loop over `zip` has none.
fn line_value(coeffs: &[u64], products: &[u64]) -> u64
    requires { length coeffs.now ≤ length products.now }
    ensures { result ≡ sum (length coeffs.now) (λ i. at products.now i * at coeffs.now i) % 2 ^ 64 }
{
    let mut sum: u64 = 0;
    for i in 0..coeffs.len() {
        sum = sum.wrapping_add(arith::wrapping_mul(products[i], coeffs[i]));
    }
    sum
}

// A number that has the value of a coefficient box in its low bits: of as many bits as the falling products have, which stand in `products`, `size` places
// for each variable. Where a falling product of the last variable is zero, so are those behind it, and no more sub-boxes are looked into. The loop has an
// index and the place of its sub-box, which with `chunks_exact` would be read off an iterator. Table and `size` go through all calls as they are: as a struct
// they would need a clause of the struct for the two bounds that are asked.
pub(crate) fn box_value(coeffs: &[u64], degrees: &[u8], products: &[u64], size: usize) -> u64
    requires shaped { Shaped size degrees.now coeffs.now }
    requires size_in_bounds { length degrees.now * size ≤ length products.now }
    ensures { HasValue size degrees.now coeffs.now products.now result }
{
    if degrees.len() == 1 {
        return line_value(coeffs, products);
    }
    let last = degrees.len() - 1;
    let sides = degrees[last] as usize + 1;
    let count = coeffs.len() / sides;
    let row = last * size;
    let mut sum: u64 = 0;
    let mut from = 0;
    for e in 0..sides {
        let falling = products[row + e];
        if falling == 0 {
            return sum;
        }
        let end = from + count;
        let inner = box_value(&coeffs[from..end], &degrees[..last], products, size);
        sum = sum.wrapping_add(arith::wrapping_mul(falling, inner));
        from = end;
    }
    sum
}
