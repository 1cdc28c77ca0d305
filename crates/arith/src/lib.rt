// Arithmetic modulo 2^w on u64, for every width: at width 0 the modulus is 1, from 64 on it is 2^64. Numbers and width come as C passes them.
#![tactic(auto)]

ghost use Rattle.std.specs.Prelude.{◌≡◌, ◌+◌, ◌-◌, ◌*◌, ◌%◌, ◌^◌, ◌<◌, min};
ghost use Rattle.meaning.specs.Differences.{minus};

// The product of two halves that fit 32 bits.
fn half_product(a: u64, b: u64) -> u64
    requires { (a < 2 ^ 32) × (b < 2 ^ 32) }
    ensures { result ≡ a * b }
{
    a * b
}

// a times b modulo 2^64, from the halves of both. Not by the library's method, since the wrong program `high_halves_crossed`, which must fail, crosses the
// halves. Compiled it is one instruction.
pub fn wrapping_mul(a: u64, b: u64) -> u64
    ensures { result ≡ (a * b) % 2 ^ 64 }
{
    let a_low = a % 0x1_0000_0000;
    let a_high = a / 0x1_0000_0000;
    let b_low = b % 0x1_0000_0000;
    let b_high = b / 0x1_0000_0000;
    let cross = half_product(a_low, b_high).wrapping_add(half_product(a_high, b_low));
    half_product(a_low, b_low).wrapping_add(cross % 0x1_0000_0000 * 0x1_0000_0000)
}

// a - b modulo 2^64, by the definition with which proofs calculate.
pub fn wrapping_sub(a: u64, b: u64) -> u64
    ensures { result ≡ minus (2 ^ 64) a b }
{
    a.wrapping_sub(b)
}

// The number whose low bits, as many as the width, are ones: 0 at width 0, all ones from 64 on.
pub fn bitmask(width: u32) -> u64
    ensures { result ≡ 2 ^ min width 64 - 1 }
{
    if 64 <= width {
        return u64::MAX;
    }
    (1u64 << width) - 1
}

// a + b modulo 2^width.
pub fn mod_add(a: u64, b: u64, width: u32) -> u64
    ensures { result ≡ (a + b) % 2 ^ min width 64 }
{
    a.wrapping_add(b) & bitmask(width)
}

// a - b modulo 2^width.
pub fn mod_sub(a: u64, b: u64, width: u32) -> u64
    ensures { result ≡ minus (2 ^ min width 64) a b }
{
    wrapping_sub(a, b) & bitmask(width)
}

// a times b modulo 2^width.
pub fn mod_mul(a: u64, b: u64, width: u32) -> u64
    ensures { result ≡ (a * b) % 2 ^ min width 64 }
{
    wrapping_mul(a, b) & bitmask(width)
}

// -a modulo 2^width.
pub fn mod_neg(a: u64, width: u32) -> u64
    ensures { result ≡ minus (2 ^ min width 64) 0 a }
{
    mod_sub(0, a, width)
}
