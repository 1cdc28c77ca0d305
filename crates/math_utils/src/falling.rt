// Falling products: x (x - 1) (x - 2) .. modulo 2^w. They stop as soon as they are zero, since all that follow are zero too; so no more factors are ever
// taken than `degree_cap`, whatever their number.
ghost use Rattle.std.specs.Prelude.{◌≡◌, length};
ghost use Rattle.meaning.specs.Leaves.{falling_reply, products_reply, products_left};
ghost use Rattle.answers.specs.Said.{said};
ghost use Rattle.math_utils.specs.Falling.{falling_said, Stops};

use answers::Refusal;

// A product, with the number of factors that were taken.
#[derive(Clone, Copy, Debug, Default, PartialEq, Eq, Hash)]
pub struct FallingProduct {
    pub value: u64,
    pub factors: u64,
}

// The product of the n factors x, x - 1, .., x - n + 1 modulo 2^bitwidth, and how many were taken: the least number of leading ones whose product is zero, or
// all n where there is none. Widths 2 to 64, else 11.
pub fn falling_product(x: u64, n: u64, bitwidth: u32) -> Result<FallingProduct, Refusal>
    ensures says { falling_said result ≡ falling_reply bitwidth x n }
    ensures stops { Stops bitwidth x n (falling_said result) }
{
    if !settings::width_fits(bitwidth) {
        return Err(Refusal::OutOfRange);
    }
    let mask = arith::bitmask(bitwidth);
    let mut product: u64 = 1;
    for taken in 0..n {
        product = arith::wrapping_mul(product, x - taken);
        let factors = taken + 1;
        if product & mask == 0 {
            return Ok(FallingProduct { value: 0, factors });
        }
    }
    Ok(FallingProduct {
        value: product & mask,
        factors: n,
    })
}

// Fills a lent table with the products of 0, 1, 2, .. factors modulo 2^bitwidth: up to the first that is zero by multiplying, and with zeros behind it.
// The result is how many factors were taken, as above. Widths 2 to 64, else 11; a refused table stays as it was.
pub fn falling_products(x: u64, bitwidth: u32, lent: &mut [u64]) -> Result<u64, Refusal>
    ensures says { said result ≡ products_reply bitwidth x (length lent.old) }
    ensures leaves { lent.new ≡ products_left bitwidth x lent.old }
{
    if !settings::width_fits(bitwidth) {
        return Err(Refusal::OutOfRange);
    }
    if lent.len() == 0 {
        return Ok(0);
    }
    let mask = arith::bitmask(bitwidth);
    let last = lent.len() - 1;
    lent[0] = 1;
    let mut product: u64 = 1;
    for taken in 0..last {
        product = arith::wrapping_mul(product, x - taken as u64);
        let factors = taken + 1;
        let low = product & mask;
        if low == 0 {
            tables::clear(&mut lent[factors..]);
            return Ok(factors as u64);
        }
        lent[factors] = low;
    }
    Ok(last as u64)
}
