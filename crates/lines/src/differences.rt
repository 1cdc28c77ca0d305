// Newton's differences of the lines of a block, in place and modulo 2^64, pass by pass.
ghost use Rattle.std.specs.Prelude.{◌≡◌, ℕ, suc, ◌+◌, ◌%◌, ◌^◌, ◌<◌, ◌≤◌, true, length};
ghost use Rattle.meaning.specs.Tables.{tabulate, at};
ghost use Rattle.meaning.specs.Differences.{newton};
ghost use Rattle.lines.specs.FlatTables.{lined, blocked};
ghost use Rattle.lines.specs.Blocks.{size, block_of};
ghost use Rattle.lines.specs.InPlace.{PassDone, PairDone, ZeroFrom, newton_local};
ghost use Rattle.lines.specs.TransformLaws.{newton_of_mul};

use crate::{Block, FourTransform, LineTransform};

// One pass over a block whose lines have the given stride: from the highest number down to place `low`, each less the one before it on its line.
fn difference_pass(part: &mut [u64], stride: usize, low: usize)
    requires { (0 < stride) × (stride ≤ low) }
    ensures { PassDone stride low part.old part.new }
{
    for i in (low..part.len()).rev() {
        part[i] = arith::wrapping_sub(part[i], part[i - stride]);
    }
}

// Two passes at once over a block, the first down to place `low`, the second to the index after it: from the highest number down. The numbers of the
// lowest index, which only the first pass reaches, come last.
fn difference_pair(part: &mut [u64], stride: usize, low: usize)
    requires { (0 < stride) × (stride ≤ low) × (low + stride ≤ length part.old) }
    ensures { PairDone stride low part.old part.new }
{
    let twice = stride + stride;
    // Never so: said for the compiler, which then knows that twice a stride is not negative.
    if 0x1000_0000_0000_0000 <= twice {
        return;
    }
    let end = low + stride;
    for i in (end..part.len()).rev() {
        let before = part[i - stride];
        part[i] = arith::wrapping_sub(
            arith::wrapping_sub(part[i], before),
            arith::wrapping_sub(before, part[i - twice]),
        );
    }
    difference_pass(&mut part[0..end], stride, low);
}

// Two passes at once over a single line, the first down to place `low`, the second to the place after it: from the lowest number up. Of the place before,
// `number` is what it had before the two passes, and `once` what the second one takes away. By an iterator in the place of the index a line of 256 takes 0.8
// percent more instructions.
fn difference_twice(part: &mut [u64], low: usize)
    requires { (0 < low) × (low < length part.old) }
    ensures { PairDone 1 low part.old part.new }
{
    let mut number = part[low - 1];
    let mut once = 0;
    for place in low..part.len() {
        let next = part[place];
        let difference = arith::wrapping_sub(next, number);
        part[place] = arith::wrapping_sub(difference, once);
        number = next;
        once = difference;
    }
}

// Whether the numbers from place `from` on are known to be 0, so that no further pass is needed. A short line is not looked at: it is done sooner.
// By an iterator in the place of the index two variables of degree 7 take 1.6 percent more instructions.
fn nothing_left(part: &[u64], from: usize) -> bool
    ensures { result ≡ true → ZeroFrom from part.now }
{
    if part.len() < 8 {
        return false;
    }
    for i in from..part.len() {
        if part[i] != 0 {
            return false;
        }
    }
    true
}

// A single line. A second pass that has nothing left to do changes nothing.
fn difference_line(part: &mut [u64])
    ensures { (d : ℕ) → length part.old ≡ suc d
        → part.new ≡ tabulate (length part.old) (lined (newton (2 ^ 64)) 1 d (at part.old)) }
{
    for low in (1..part.len()).step_by(2) {
        difference_twice(part, low);
        if nothing_left(part, low + 1) {
            return;
        }
    }
}

// Every line of a block, pass by pass.
fn difference_short(part: &mut [u64], block: Block)
    requires { length part.old ≡ size block }
    ensures { part.new ≡ block_of (newton (2 ^ 64)) block part.old }
{
    // An index by hand: short blocks would pay for `step_by`.
    let mut low = block.stride;
    while low < part.len() {
        difference_pass(part, block.stride, low);
        low += block.stride;
    }
}

// The same, two passes at a time, as long as anything is left. It stands by itself, so that short blocks do not pay for long ones. One function for this loop
// and that of a single line would take a trait with two instances and a function around it that stands by itself, for six lines.
#[inline(never)]
fn difference_long(part: &mut [u64], block: Block)
    requires { length part.old ≡ size block }
    ensures { part.new ≡ block_of (newton (2 ^ 64)) block part.old }
{
    let stride = block.stride;
    for low in (stride..part.len()).step_by(stride + stride) {
        difference_pair(part, stride, low);
        if nothing_left(part, low + stride) {
            return;
        }
    }
}

// The same, by what is fastest.
fn difference_block(part: &mut [u64], block: Block)
    requires { length part.old ≡ size block }
    ensures { part.new ≡ block_of (newton (2 ^ 64)) block part.old }
{
    // Never so: said for the compiler, which then knows that a stride is not negative.
    if 0x1000_0000_0000_0000 <= block.stride {
        return;
    }
    if block.stride == 1 {
        difference_line(part);
        return;
    }
    if block.degree < 7 {
        difference_short(part, block);
        return;
    }
    difference_long(part, block);
}

// The pairs of neighbours of a table, which are the lines of a first variable of degree 1.
fn difference_twos(table: &mut [u64])
    requires { length table.old % 2 ≡ 0 }
    ensures { table.new ≡ tabulate (length table.old) (blocked (newton (2 ^ 64)) 1 1 (at table.old)) }
{
    // An index by hand, as in fours.rt.
    let mut i = 0;
    while i + 1 < table.len() {
        table[i + 1] = arith::wrapping_sub(table[i + 1], table[i]);
        i += 2;
    }
}

// Newton's differences at 0.
#[derive(Clone, Copy, Debug, PartialEq, Eq)]
pub struct Differences;

impl FourTransform for Differences {
    ghost line = { λ x m. newton m };

    const BY_TWOS: bool = false;

    fn four(self, numbers: [u64; 4]) -> [u64; 4] {
        let first = arith::wrapping_sub(numbers[1], numbers[0]);
        let second = arith::wrapping_sub(numbers[2], numbers[1]);
        let third = arith::wrapping_sub(numbers[3], numbers[2]);
        let twice = arith::wrapping_sub(second, first);
        [
            numbers[0],
            first,
            twice,
            arith::wrapping_sub(arith::wrapping_sub(third, second), twice),
        ]
    }

    ghost local = { λ x. newton_local };

    ghost of_mul = { λ x. newton_of_mul };
}

impl LineTransform for Differences {
    fn leaves_lines(self, _degree: u8) -> bool {
        false
    }

    fn neighbours(self, table: &mut [u64], degree: u8) -> bool {
        if degree != 1 || table.len() % 2 != 0 {
            return false;
        }
        difference_twos(table);
        true
    }

    fn block(self, part: &mut [u64], block: Block) {
        if !block.fits(part) {
            return;
        }
        difference_block(part, block);
    }
}
