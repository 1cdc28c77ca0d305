// Counts of twos, odd parts and inverses modulo powers of two, falling products, and both tables of Stirling numbers.
#![tactic(auto)]

ghost use Rattle.std.specs.Prelude.{◌≡◌, ◌*◌, ◌%◌, ◌^◌, ◌≤◌};
ghost use Rattle.meaning.specs.Factorials.{factorial, twos, degree_cap_of};
ghost use Rattle.meaning.specs.Inverses.{inverse};
ghost use Rattle.meaning.specs.Leaves.{cap_reply, odd_part_reply, inverse_reply};
ghost use Rattle.meaning.specs.Differences.{minus};
ghost use Rattle.answers.specs.Said.{said};
ghost use Rattle.math_utils.specs.Precision.{precision};

pub mod falling;
pub mod odd_factors;
pub mod stirling;

use answers::Refusal;

// The twos in k!, which are k less the ones among its binary digits.
pub fn twos_in_factorial(k: u32) -> u32
    ensures { result ≡ twos (factorial k) }
{
    k - k.count_ones()
}

// How many bits of a coefficient count where the factorials have `weight` twos: the width less the weight; none where the weight is the width or more.
pub fn precision_bits(weight: u32, bitwidth: u32) -> Option<u32>
    ensures { result ≡ precision weight bitwidth }
{
    if bitwidth <= weight {
        None
    } else {
        Some(bitwidth - weight)
    }
}

// The least degree whose factorial has as many twos as the width. 66 has 64.
fn least_degree(bitwidth: u32) -> u32
    requires { bitwidth ≤ 64 }
    ensures { result ≡ degree_cap_of bitwidth }
{
    (0..66)
        .find(|degree| bitwidth <= twos_in_factorial(*degree))
        .unwrap_or(66)
}

// The least degree whose factorial has as many twos as the width: 4 at width 2, 10 at 8, 66 at 64. Widths 2 to 64, else 11.
pub fn degree_cap(bitwidth: u32) -> Result<u64, Refusal>
    ensures { said result ≡ cap_reply bitwidth }
{
    if !settings::width_fits(bitwidth) {
        return Err(Refusal::OutOfRange);
    }
    Ok(least_degree(bitwidth) as u64)
}

// The odd part of k! modulo 2^bitwidth. k to 255 and widths 1 to 64, else 11.
pub fn odd_part_factorial(k: u32, bitwidth: u32) -> Result<u64, Refusal>
    ensures { said result ≡ odd_part_reply k bitwidth }
{
    if 255 < k || bitwidth == 0 || 64 < bitwidth {
        return Err(Refusal::OutOfRange);
    }
    let table = odd_factors::odd_factorials();
    Ok(table[k as usize] & arith::bitmask(bitwidth))
}

// One step of Newton's: where v is the inverse of x modulo 2^n, the result is it modulo 2^(2 n), for n to 32.
fn lift(x: u64, v: u64) -> u64
    ensures { result ≡ (v * minus (2 ^ 64) 2 ((x * v) % 2 ^ 64)) % 2 ^ 64 }
{
    arith::wrapping_mul(v, arith::wrapping_sub(2, arith::wrapping_mul(x, v)))
}

// The inverse of an odd x modulo 2^64: x is its own inverse modulo 8, and each step doubles the bits that are right.
pub(crate) fn inverse_word(x: u64) -> u64
    requires { x % 2 ≡ 1 }
    ensures { result ≡ inverse x 64 }
{
    let v6 = lift(x, x);
    let v12 = lift(x, v6);
    let v24 = lift(x, v12);
    let v48 = lift(x, v24);
    lift(x, v48)
}

// The inverse of x modulo 2^bits. Odd x and 1 to 64 bits, else 11.
pub fn mod_inverse_odd(x: u64, bits: u32) -> Result<u64, Refusal>
    ensures { said result ≡ inverse_reply x bits }
{
    if x % 2 == 0 || bits == 0 || 64 < bits {
        return Err(Refusal::OutOfRange);
    }
    Ok(inverse_word(x) & arith::bitmask(bits))
}
