// The leaves. A case is `OP A B C`, with OP 21 wrapping_mul, 22 bitmask, 23 mod_add, 24 mod_sub, 25 mod_mul, 26 mod_neg, 27 twos_in_factorial,
// 28 precision_bits, 29 degree_cap, 30 odd_part_factorial, 31 mod_inverse_odd, 32 and 33 an entry of the Stirling table of the second and first kind. The
// number of the answer and its value are printed. Each OP is another call, and has an arm of its own in the matches.
use crate::calls::{Kind, Leaf};
use crate::print::{low8, low32};
use answers::Refusal;
use math_utils::stirling::{build_stirling_first_kind, build_stirling_second_kind};

// One entry of a Stirling table.
fn stirling_entry(kind: Kind, degree: u8, bitwidth: u32, cell: u64) -> Result<u64, Refusal> {
    let side = usize::from(degree) + 1;
    let mut room = [0; 65536];
    let table = &mut room[..side * side];
    match kind {
        Kind::First => build_stirling_first_kind(degree, bitwidth, table)?,
        Kind::Second => build_stirling_second_kind(degree, bitwidth, table)?,
    }
    Ok(room[(cell % 65536) as usize])
}

// The answer of a leaf to its three numbers.
pub(crate) fn answer(leaf: Leaf, a: u64, b: u64, c: u64) -> Result<u64, Refusal> {
    match leaf {
        Leaf::WrappingMul => Ok(arith::wrapping_mul(a, b)),
        Leaf::Bitmask => Ok(arith::bitmask(low32(a))),
        Leaf::ModAdd => Ok(arith::mod_add(a, b, low32(c))),
        Leaf::ModSub => Ok(arith::mod_sub(a, b, low32(c))),
        Leaf::ModMul => Ok(arith::mod_mul(a, b, low32(c))),
        Leaf::ModNeg => Ok(arith::mod_neg(a, low32(b))),
        Leaf::TwosInFactorial => Ok(u64::from(math_utils::twos_in_factorial(low32(a)))),
        Leaf::PrecisionBits => {
            let bits = math_utils::precision_bits(low32(a), low32(b));
            Ok(u64::from(bits.unwrap_or(0)))
        }
        Leaf::DegreeCap => math_utils::degree_cap(low32(a)),
        Leaf::OddPartFactorial => math_utils::odd_part_factorial(low32(a), low32(b)),
        Leaf::ModInverseOdd => math_utils::mod_inverse_odd(a, low32(b)),
        Leaf::Stirling(kind) => stirling_entry(kind, low8(a), low32(b), c),
    }
}
