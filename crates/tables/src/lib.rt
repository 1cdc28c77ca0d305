// Whole tables of numbers: copied, set to zero, cut to a width.
#![tactic(auto)]

ghost use Rattle.std.specs.Prelude.{◌≡◌, cond, eqb, length, ◌%◌, ◌^◌, min};
ghost use Rattle.meaning.specs.Tables.{tabulate, at};

// Makes `to` equal to `from`, where both have the same length, and else leaves it as it is: a copy that asks nothing of its caller, where `copy_from_slice`
// asks for equal lengths. `from` is not altered. A loop, which the compiler makes a `memcpy`: `copy_from_slice` becomes a `memmove`, and a program in C that
// links the library would have to have that too.
pub fn copy(from: &[u64], to: &mut [u64])
    ensures { to.new ≡ cond (eqb (length from.now) (length to.old)) from.now to.old }
{
    if from.len() != to.len() {
        return;
    }
    for (i, entry) in to.iter_mut().enumerate() {
        *entry = from[i];
    }
}

// Sets every number to 0. A `for` and not the library's `fill`, which sets the last number by itself: with that, the Stirling tables, whose filling begins here,
// took 1.1 to 1.7 times as long.
pub fn clear(table: &mut [u64])
    ensures { table.new ≡ tabulate (length table.old) (λ n. 0) }
{
    for entry in table.iter_mut() {
        *entry = 0;
    }
}

// Every number modulo 2^width; from width 64 on it stays as it was.
pub fn cut(table: &mut [u64], width: u32)
    ensures { table.new ≡ tabulate (length table.old) (λ n. at table.old n % 2 ^ min width 64) }
{
    let mask = arith::bitmask(width);
    for entry in table.iter_mut() {
        *entry &= mask;
    }
}
