// How many columns a fit has, without listing them: for each largest sum the exponent lists that keep it, one variable after another. The library has no heap,
// so the counts are in arrays, of which the part up to the largest sum is lent. That the box has at most 65,536 cells stands in three contracts: a type for
// it would be made and read in this file alone.
ghost use Rattle.std.specs.Prelude.{◌≡◌, cond, ℕ, suc, ◌-◌, ◌≤◌, ◌<◌, min, ltb, length};
ghost use Rattle.meaning.specs.Tables.{tabulate, at};
ghost use Rattle.meaning.specs.Sums.{sum};
ghost use Rattle.meaning.specs.Boxes.{cells};
ghost use Rattle.meaning.specs.Fit.{columns};

// The count that leaves the running sum at place s: that of `degree + 1` places before, where there is one.
fn leaving(counts: &[u64], degree: usize, s: usize) -> u64
    requires { s < length counts.now }
    ensures { result ≡ cond (ltb degree s) (at counts.now (s - suc degree)) 0 }
{
    if degree < s {
        return counts[s - degree - 1];
    }
    0
}

// The counts with a variable of that degree more: the exponent lists with a sum of s at most are those of s, s - 1, .., s - degree with the exponent 0, 1, ..,
// degree besides. A running sum goes along.
fn sum_up(counts: &[u64], degree: u8, next: &mut [u64])
    requires { (length next.old ≡ length counts.now) × ((i : ℕ) → at counts.now i ≤ 65536) }
    ensures { next.new ≡ tabulate (length next.old) (λ s. sum (suc (min degree s)) (λ e. at counts.now (s - e))) }
{
    let width = degree as usize;
    let mut running: u64 = 0;
    for (s, sum) in next.iter_mut().enumerate() {
        running = running + counts[s] - leaving(counts, width, s);
        *sum = running;
    }
}

// The same in place. `next` is used up.
fn add_variable(counts: &mut [u64], next: &mut [u64], degree: u8)
    requires { (length next.old ≡ length counts.old) × ((i : ℕ) → at counts.old i ≤ 65536) }
    ensures { counts.new ≡ tabulate (length counts.old) (λ s. sum (suc (min degree s)) (λ e. at counts.old (s - e))) }
{
    sum_up(counts, degree, next);
    counts.copy_from_slice(next);
}

// The counts of one variable of that degree: its exponents are 0, 1, .., the smaller of the degree and the largest sum.
fn count_one(counts: &mut [u64], degree: u8)
    ensures { counts.new ≡ tabulate (length counts.old) (λ s. suc (min degree s)) }
{
    let most = degree as usize;
    for (s, count) in counts.iter_mut().enumerate() {
        *count = s.min(most) as u64 + 1;
    }
}

// The columns for each largest sum that `counts` has a place for: those of the last variable, then one variable after another. `next` is used up. By
// the index: over `iter().rev()` the loop would keep four things where it keeps two, since what the iterator has left is one of them.
fn count_lists(counts: &mut [u64], next: &mut [u64], degrees: &[u8])
    requires { (length next.old ≡ length counts.old) × (cells degrees.now ≤ 65536) × (0 < length degrees.now) }
    ensures { counts.new ≡ tabulate (length counts.old) (λ s. length (columns degrees.now s)) }
{
    let last = degrees.len() - 1;
    count_one(counts, degrees[last]);
    for i in (0..last).rev() {
        add_variable(counts, next, degrees[i]);
    }
}

// The last of them, with room for sums below ROOM.
fn count_within<const ROOM: usize>(degrees: &[u8], most: usize) -> u64
    requires { (cells degrees.now ≤ 65536) × (0 < length degrees.now) × (most < ROOM) × (ROOM ≤ 256) }
    ensures { result ≡ length (columns degrees.now most) }
{
    let mut room = [0u64; ROOM];
    let mut next = [0u64; ROOM];
    let counts = &mut room[..most + 1];
    count_lists(counts, &mut next[..most + 1], degrees);
    counts[most]
}

// How many exponent lists there are with no exponent above its degree and a sum of `most` at most: in time that grows with the variables times `most`. Sums
// below 16 have a small room.
pub(crate) fn count_columns(degrees: &[u8], most: u8) -> u64
    requires { cells degrees.now ≤ 65536 }
    ensures { result ≡ length (columns degrees.now most) }
{
    let sum = most as usize;
    if degrees.len() == 0 {
        return 1;
    }
    if sum < 16 {
        return count_within::<16>(degrees, sum);
    }
    count_within::<256>(degrees, sum)
}
