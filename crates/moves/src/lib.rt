// Moves of a flat table along one variable after the other, in place and modulo 2^64: coefficients of falling factorials become those of the polynomial with
// each variable replaced by itself plus an offset. The first variable's exponent counts fastest.
#![tactic(auto)]

ghost use Rattle.std.specs.Prelude.{◌≡◌, ◌^◌, cond, length, ◌==◌};
ghost use Rattle.meaning.specs.Boxes.{cells};
ghost use Rattle.theory.specs.Moved.{shifted};

mod first;
mod fours;
mod pairs;
mod passes;

use crate::first::Lines;
use crate::fours::Move;
use lines::{Block, LineTransform, OfNumber};

impl LineTransform for Move {
    // without an offset
    fn leaves_lines(self, _degree: u8) -> bool {
        self.offset == 0
    }

    fn neighbours(self, table: &mut [u64], degree: u8) -> bool {
        let lines = Lines {
            degree: degree as usize,
            offset: self.offset,
        };
        if !lines.fit(table) {
            return false;
        }
        first::move_first(table, lines);
        true
    }

    fn block(self, part: &mut [u64], block: Block) {
        if !block.fits(part) {
            return;
        }
        passes::move_block(part, block, self.offset);
    }
}

impl OfNumber for Move {
    ghost given = { λ a. record { offset = a } };

    fn of(number: u64) -> Move {
        Move { offset: number }
    }
}

// Moves the coefficients of falling factorials in the table, one for each cell of the box of `degrees`, along every variable: they become those of the
// polynomial with each variable replaced by itself plus its offset, 0 where there is none, modulo 2^64. A table of any other length is left as it was.
pub fn move_all(table: &mut [u64], degrees: &[u8], offsets: &[u64])
    ensures { table.new ≡ cond (length table.old == cells degrees.now)
        (shifted (2 ^ 64) degrees.now table.old offsets.now) table.old }
{
    lines::transform_each::<Move>(offsets, table, degrees);
}
