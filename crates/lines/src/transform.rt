// What a transform of lines is.
ghost use Rattle.std.specs.Prelude.{◌≡◌, ℕ, ◌^◌, ◌≤◌, true, cond, length, ◌==◌};
ghost use Rattle.meaning.specs.Tables.{tabulate, at};
ghost use Rattle.theory.specs.AlongEach.{Line};
ghost use Rattle.lines.specs.FlatTables.{blocked, Local};
ghost use Rattle.lines.specs.Blocks.{size, block_of};
ghost use Rattle.lines.specs.LowDegrees.{Leaves};
ghost use Rattle.lines.specs.Transforms.{Words, OfMul};

use crate::Block;

// A transform of lines, with what it makes of four numbers modulo 2^64.
pub trait FourTransform: Copy {
    // the line that becomes of a line, modulo m
    ghost line: { Self → ℕ → Line };

    // Whether lines of degree 3 go two a turn, so that the compiler leaves them to single products, which are quicker than its vectors.
    const BY_TWOS: bool;

    // A line of degree 3.
    fn four(self, numbers: [u64; 4]) -> [u64; 4]
        ensures { Words numbers → (j : ℕ) → j ≤ 3 → at result j ≡ line self (2 ^ 64) 3 (at numbers) j };

    // a transform only reads its line
    ghost local: { (x : Self) (m : ℕ) → Local (line x m) };

    // and a narrower modulus is read off the result
    ghost of_mul: { (x : Self) → OfMul (line x) };
}

// How it is done to the lines of a table, in place and modulo 2^64. Whether a table is cut into lines, or as long as a block, each contract sees from its
// length, and no step asks it: it is a slice, lent anew for each part, and no type with a clause of its own.
pub trait LineTransform: FourTransform {
    // Whether lines of a degree stay as they are.
    fn leaves_lines(self, degree: u8) -> bool
        ensures { result ≡ true → Leaves (Self.line self (2 ^ 64)) degree };

    // The lines of a first variable, which lie one behind the other, by a way of their own, where there is one for their degree and the table is cut
    // into such lines: whether it was so.
    fn neighbours(self, table: &mut [u64], degree: u8) -> bool
        ensures { table.new ≡ cond result (tabulate (length table.old) (blocked (Self.line self (2 ^ 64)) 1 degree (at table.old))) table.old };

    // Every line of a block. A part that is not as long as the block is left as it was.
    fn block(self, part: &mut [u64], block: Block)
        ensures { part.new ≡ cond (length part.old == size block) (block_of (Self.line self (2 ^ 64)) block part.old) part.old };
}

// A transform that is given by a number.
pub trait OfNumber: LineTransform {
    ghost given: { ℕ → Self };

    fn of(number: u64) -> Self
        ensures { result ≡ given number };
}
