// From powers to falling factorials: the conversion of the lines of a block, in place and modulo 2^64, as a change of nodes.
ghost use Rattle.std.specs.Prelude.{◌≡◌, ℕ, suc, ◌+◌, ◌^◌, ◌<◌, ◌≤◌, length};
ghost use Rattle.meaning.specs.Tables.{tabulate, at};
ghost use Rattle.meaning.specs.Stirling.{falling_line};
ghost use Rattle.lines.specs.FlatTables.{lined};
ghost use Rattle.lines.specs.Blocks.{size, block_of, Passes};
ghost use Rattle.lines.specs.NodePasses.{Passed};
ghost use Rattle.lines.specs.NodeConversions.{to_falling};
ghost use Rattle.lines.specs.Conversions.{falling_line_local};
ghost use Rattle.lines.specs.TransformLaws.{falling_of_mul};

use crate::{Block, FourTransform, LineTransform};

// A pass over a block, towards falling factorials: every coefficient from index `pass` on, the highest first, gets `pass` times the next one added.
// Two a turn, so that the compiler makes single products, which are quicker than its vectors (docs/SPEED.md, Conversions); the last one may be left over.
// `undivide` in powers.rt subtracts, the lowest first: one function for both would take order and sign from its caller.
fn divide(part: &mut [u64], block: Block, pass: usize)
    requires { (0 < pass) × (pass ≤ block.degree) × (length part.old ≡ size block) }
    ensures { Passes to_falling block pass (suc pass) part.old part.new }
{
    let stride = block.stride;
    let factor = pass as u64;
    let end = stride * pass;
    let mut i = part.len() - stride;
    while end + 1 < i {
        i -= 1;
        part[i] = part[i].wrapping_add(arith::wrapping_mul(factor, part[i + stride]));
        i -= 1;
        part[i] = part[i].wrapping_add(arith::wrapping_mul(factor, part[i + stride]));
    }
    if end < i {
        i -= 1;
        part[i] = part[i].wrapping_add(arith::wrapping_mul(factor, part[i + stride]));
    }
}

// Two passes at once over a single line, from the highest coefficient down: of the one before, `one` is what it has after the first of them, and `two`
// after both. The lowest that is reached gets the first pass alone. By place: of numbers that are written through `iter_mut().rev()` the library's contracts
// say nothing.
fn divide_twice(part: &mut [u64], pass: usize)
    requires { pass + 1 < length part.old }
    ensures { (d : ℕ) (f : ℕ → ℕ) → length part.old ≡ suc d
        → Passed (2 ^ 64) to_falling 1 d f (length part.old) pass part.old
        → Passed (2 ^ 64) to_falling 1 d f (length part.old) (suc (suc pass)) part.new }
{
    let factor = pass as u64;
    let next = pass as u64 + 1;
    let last = part.len() - 1;
    let mut one = part[last];
    let mut two = part[last];
    for i in (pass + 1..last).rev() {
        one = part[i].wrapping_add(arith::wrapping_mul(factor, one));
        two = one.wrapping_add(arith::wrapping_mul(next, two));
        part[i] = two;
    }
    part[pass] = part[pass].wrapping_add(arith::wrapping_mul(factor, one));
}

// All passes over a block, the first one first: its lines go from powers to falling factorials.
fn divide_passes(part: &mut [u64], block: Block)
    requires { length part.old ≡ size block }
    ensures { part.new ≡ block_of (falling_line (2 ^ 64)) block part.old }
{
    for pass in 1..block.degree {
        divide(part, block, pass);
    }
}

// The same of a single line, two passes at a time.
fn divide_line(part: &mut [u64], degree: usize)
    requires { length part.old ≡ suc degree }
    ensures { part.new ≡ tabulate (length part.old) (lined (falling_line (2 ^ 64)) 1 degree (at part.old)) }
{
    for pass in (1..degree).step_by(2) {
        divide_twice(part, pass);
    }
}

// The same, by what is fastest.
fn divide_block(part: &mut [u64], block: Block)
    requires { length part.old ≡ size block }
    ensures { part.new ≡ block_of (falling_line (2 ^ 64)) block part.old }
{
    // Never so: said for the compiler, which then knows that a stride is not negative.
    if 0x1000_0000_0000_0000 <= block.stride {
        return;
    }
    if block.stride == 1 {
        divide_line(part, block.degree);
        return;
    }
    divide_passes(part, block);
}

// From the coefficients of powers to those of falling factorials.
#[derive(Clone, Copy, Debug, PartialEq, Eq)]
pub struct ToFalling;

impl FourTransform for ToFalling {
    ghost line = { λ x m. falling_line m };

    const BY_TWOS: bool = false;

    fn four(self, numbers: [u64; 4]) -> [u64; 4] {
        let [first, second, third, last] = numbers;
        let middle = third.wrapping_add(last);
        [
            first,
            second.wrapping_add(middle),
            middle.wrapping_add(arith::wrapping_mul(2, last)),
            last,
        ]
    }

    ghost local = { λ x. falling_line_local };

    ghost of_mul = { λ x. falling_of_mul };
}

impl LineTransform for ToFalling {
    fn leaves_lines(self, degree: u8) -> bool {
        degree < 2
    }

    fn neighbours(self, _table: &mut [u64], _degree: u8) -> bool {
        false
    }

    fn block(self, part: &mut [u64], block: Block) {
        if !block.fits(part) {
            return;
        }
        divide_block(part, block);
    }
}
