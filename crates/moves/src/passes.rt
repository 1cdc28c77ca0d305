// Lines moved by an offset, in place and modulo 2^64: coefficients of falling factorials of x become those of the same polynomial at x plus the offset. The
// nodes 0, 1, 2, .. of the falling factorials become offset, offset + 1, ..: in a block of s interleaved lines, which are the rows 0 to d of s numbers, pass k,
// from k = d - 1 down to 0, goes over the rows from k up to d - 1 and adds to each the row above it times offset + row - 2 k, the new node less the old one.
// Two passes at once add multiples of the row above and of the row two above. `near` and `far` are the multiples: as a struct they would be made anew for each
// row.
ghost use Rattle.std.specs.Prelude.{◌≡◌, ◌+◌, ◌^◌, ◌≤◌, length};
ghost use Rattle.theory.specs.MovedLines.{shift, moved_line};
ghost use Rattle.lines.specs.Blocks.{size, block_of, Opens, opens_follow};
ghost use Rattle.moves.specs.NodeRows.{Added};

use crate::pairs::{Pairs, make_passes};
use lines::Block;

// Each of the `stride` numbers from place `from` on gets `factor` times the number one stride above it added. The next function with `far` = 0 would read past
// the end in the last row.
fn add_row(part: &mut [u64], stride: usize, from: usize, factor: u64)
    requires { from + stride + stride ≤ length part.old }
    ensures { Added (2 ^ 64) stride from factor 0 part.old part.new (from + stride) }
{
    for i in from..from + stride {
        part[i] = part[i].wrapping_add(arith::wrapping_mul(factor, part[i + stride]));
    }
}

// Each of the `stride` numbers from place `from` on gets `near` times the number one stride above it and `far` times the number two strides above it added.
fn add_rows(part: &mut [u64], stride: usize, from: usize, near: u64, far: u64)
    requires { from + stride + stride + stride ≤ length part.old }
    ensures { Added (2 ^ 64) stride from near far part.old part.new (from + stride) }
{
    let twice = stride + stride;
    // Never so: said for the compiler, which then knows that the distance is not negative.
    if 0x1000_0000_0000_0000 <= twice {
        return;
    }
    for i in from..from + stride {
        part[i] = part[i].wrapping_add(arith::wrapping_mul(near, part[i + stride]).wrapping_add(
            arith::wrapping_mul(far, part[i + twice]),
        ));
    }
}

// A block, row by row, and the offset that it is moved by.
#[derive(Clone, Copy, Debug, PartialEq, Eq)]
struct Rows {
    block: Block,
    offset: u64,
}

impl Pairs for Rows {
    ghost degree = { λ x. x.block.degree };

    ghost fits = { λ x n. n ≡ size x.block };

    ghost made = { λ x. Opens (shift (2 ^ 64) x.offset) x.block };

    fn degree(self) -> usize {
        self.block.degree
    }

    // It has one row.
    fn alone(self, part: &mut [u64], done: usize) {
        let stride = self.block.stride;
        add_row(
            part,
            stride,
            stride * done,
            arith::wrapping_sub(self.offset, done as u64),
        );
    }

    // The last row has no row two above it. The loop is like that of `move_number_pair` in first.rt, where the reason stands.
    fn two(self, part: &mut [u64], done: usize) {
        let stride = self.block.stride;
        let end = part.len() - stride - stride;
        let first = arith::wrapping_sub(self.offset, done as u64);
        let mut from = stride * done;
        add_rows(
            part,
            stride,
            from,
            first,
            arith::wrapping_mul(first, arith::wrapping_sub(first, 1)),
        );
        from += stride;
        let mut near = first.wrapping_add(first);
        let mut far = arith::wrapping_mul(first, first.wrapping_add(1));
        // An index by hand: by `step_by` two passes take 20 to 30 instructions more, which on a block of nine numbers is 6 percent.
        while from < end {
            add_rows(part, stride, from, near, far);
            from += stride;
            near = near.wrapping_add(2);
            far = far.wrapping_add(near);
        }
        add_row(part, stride, from, near);
    }

    ghost none = { λ x k t f r. r };

    ghost follow = { λ x k l n t u v. opens_follow x.block };
}

// All passes over a block. It stands by itself: moved into the loop over the blocks it takes up to a tenth longer.
#[inline(never)]
pub(crate) fn move_block(part: &mut [u64], block: Block, offset: u64)
    requires { length part.old ≡ size block }
    ensures { part.new ≡ block_of (moved_line (2 ^ 64) offset) block part.old }
{
    // Never so: said for the compiler, which then knows that a stride is not negative.
    if 0x1000_0000_0000_0000 <= block.stride {
        return;
    }
    make_passes(Rows { block, offset }, part);
}
