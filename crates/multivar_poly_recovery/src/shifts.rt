// Tables moved to the high bits of their words, and back. Modulo 2^64 the differences of 2^s v are 2^s times those of v modulo 2^(64 - s), so that a
// difference that is 0 at the width is 0 in its word.
ghost use Rattle.std.specs.Prelude.{◌≡◌, ◌*◌, ◌/◌, ◌%◌, ◌^◌, ◌<◌, length};
ghost use Rattle.meaning.specs.Tables.{tabulate, at};

// The numbers of `from` times 2^by, modulo 2^64. The loop has an index, which its invariant speaks of: a loop over `zip` has none.
pub(crate) fn raise(from: &[u64], to: &mut [u64], by: u32)
    requires { (by < 64) × (length from.now ≡ length to.old) }
    ensures { to.new ≡ tabulate (length to.old) (λ n. (at from.now n * 2 ^ by) % 2 ^ 64) }
{
    for (i, x) in to.iter_mut().enumerate() {
        *x = from[i] << by;
    }
}

// Every number over 2^by.
pub(crate) fn lower(table: &mut [u64], by: u32)
    requires { by < 64 }
    ensures { table.new ≡ tabulate (length table.old) (λ n. at table.old n / 2 ^ by) }
{
    if by == 0 {
        return;
    }
    for x in table.iter_mut() {
        *x >>= by;
    }
}
