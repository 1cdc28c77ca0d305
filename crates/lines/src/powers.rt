// From falling factorials to powers: the conversion of the lines of a block, in place and modulo 2^64, as a change of nodes.
ghost use Rattle.std.specs.Prelude.{◌≡◌, suc, ◌^◌, ◌<◌, ◌≤◌, length};
ghost use Rattle.meaning.specs.Stirling.{power_line};
ghost use Rattle.lines.specs.Blocks.{size, block_of, Opens};
ghost use Rattle.lines.specs.NodeConversions.{to_powers};
ghost use Rattle.lines.specs.Conversions.{power_line_local};
ghost use Rattle.lines.specs.TransformLaws.{power_of_mul};

use crate::{Block, FourTransform, LineTransform};

// A pass over a block, towards powers: every coefficient from index `pass` on, the lowest first, gets `pass` times the next one subtracted. Two a turn, as in
// falling.rt.
fn undivide(part: &mut [u64], block: Block, pass: usize)
    requires { (0 < pass) × (pass ≤ block.degree) × (length part.old ≡ size block) }
    ensures { Opens (to_powers (2 ^ 64)) block (suc pass) pass part.old part.new }
{
    let stride = block.stride;
    let factor = pass as u64;
    let last = part.len() - stride - 1;
    let mut i = stride * pass;
    while i < last {
        part[i] = arith::wrapping_sub(part[i], arith::wrapping_mul(factor, part[i + stride]));
        let next = i + 1;
        part[next] = arith::wrapping_sub(
            part[next],
            arith::wrapping_mul(factor, part[next + stride]),
        );
        i += 2;
    }
    if i == last {
        part[i] = arith::wrapping_sub(part[i], arith::wrapping_mul(factor, part[i + stride]));
    }
}

// All passes over a block, the last one first: its lines go from falling factorials to powers. It stands by itself: moved into the loop over the blocks it
// takes up to a tenth longer.
#[inline(never)]
fn undivide_passes(part: &mut [u64], block: Block)
    requires { length part.old ≡ size block }
    ensures { part.new ≡ block_of (power_line (2 ^ 64)) block part.old }
{
    for pass in (1..block.degree).rev() {
        undivide(part, block, pass);
    }
}

// From the coefficients of falling factorials to those of powers.
#[derive(Clone, Copy, Debug, PartialEq, Eq)]
pub struct ToPowers;

impl FourTransform for ToPowers {
    ghost line = { λ x m. power_line m };

    const BY_TWOS: bool = false;

    fn four(self, numbers: [u64; 4]) -> [u64; 4] {
        let [first, second, third, last] = numbers;
        let middle = arith::wrapping_sub(third, arith::wrapping_mul(2, last));
        [
            first,
            arith::wrapping_sub(second, middle),
            arith::wrapping_sub(middle, last),
            last,
        ]
    }

    ghost local = { λ x. power_line_local };

    ghost of_mul = { λ x. power_of_mul };
}

impl LineTransform for ToPowers {
    fn leaves_lines(self, degree: u8) -> bool {
        degree < 2
    }

    fn neighbours(self, _table: &mut [u64], _degree: u8) -> bool {
        false
    }

    fn block(self, part: &mut [u64], block: Block) {
        if !block.fits(part) {
            return;
        }
        undivide_passes(part, block);
    }
}
