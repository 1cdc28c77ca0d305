// Tables of Stirling numbers modulo 2^w, filled row by row: a table of degree n has n + 1 rows of n + 1 entries.
ghost use Rattle.std.specs.Prelude.{◌≡◌, ℕ, ◌+◌, ◌*◌, ◌%◌, ◌^◌, ◌<◌, ◌≤◌, List, length};
ghost use Rattle.meaning.specs.Tables.{tabulate};
ghost use Rattle.meaning.specs.Leaves.{stirling1_table, stirling2_table, stirling_number, stirling_left};
ghost use Rattle.answers.specs.Said.{said_number};
ghost use Rattle.theory.specs.Tables.{Filled};
ghost use Rattle.math_utils.specs.Kinds.{entry, factor, Factors, table, Zeros};
ghost use Rattle.math_utils.specs.declared.stirling.Kind.{Kind};

use answers::Refusal;

// The two kinds of Stirling numbers. Matched below, since closures for the factors would stand in three contracts.
#[derive(Clone, Copy, Debug, PartialEq, Eq)]
pub(crate) enum Kind {
    First,
    Second,
}

impl Kind {
    // The factor of the entry above, as a word, in column 1 of row i: 1 for the second kind, and 1 - i, which wraps, for the first.
    fn first_factor(self, i: u64) -> u64
        ensures { result ≡ factor self i 1 }
    {
        match self {
            Kind::First => arith::wrapping_sub(1, i),
            Kind::Second => 1,
        }
    }

    // What it grows by from one column to the next.
    fn factor_step(self) -> u64
        ensures { (i j : ℕ) → factor self i (j + 1) ≡ (factor self i j + result) % 2 ^ 64 }
    {
        match self {
            Kind::First => 0,
            Kind::Second => 1,
        }
    }
}

// An entry from the one above and the one left of that. That the width is at most 64 stands here and in the two functions below. `two_adic_solver` has
// `Width` for it, with methods, in a crate above this one; here the width is only handed on to one sum, so that a struct would be made in one place and read
// in one.
fn next_entry(left: u64, factor: u64, above: u64, bitwidth: u32) -> u64
    requires { bitwidth ≤ 64 }
    ensures { result ≡ (left + factor * above) % 2 ^ bitwidth }
{
    arith::mod_add(left, arith::wrapping_mul(factor, above), bitwidth)
}

// Row i, which is zero, from the row before it, which begins at `from`, with the factors `first`, `first` + `step`, .. of its columns 1, 2, ... Above the
// diagonal it stays zero. An index by hand, two entries a turn, since the compiler would make a vector loop of single ones, which in a short row waits for
// what was just stored (measured: docs/SPEED.md).
fn fill_row(
    table: &mut [u64],
    side: usize,
    from: usize,
    i: usize,
    first: u64,
    step: u64,
    bitwidth: u32,
)
    requires i_nonzero { (0 < i) × (i < side) × (from + side + side ≤ length table.old) × (from + side ≡ i * side) }
    requires bitwidth_bound { bitwidth ≤ 64 }
    ensures { (kind : Kind) (t : List ℕ) → Factors kind i first step → Zeros t
        → Filled (entry kind bitwidth side) t table.old (i * side)
        → Filled (entry kind bitwidth side) t table.new (i * side + side) }
{
    let mut factor = first;
    let mut left = table[from];
    let mut j = 1;
    while j < i {
        let above = table[from + j];
        let after = table[from + j + 1];
        let second = factor.wrapping_add(step);
        table[from + side + j] = next_entry(left, factor, above, bitwidth);
        table[from + side + j + 1] = next_entry(above, second, after, bitwidth);
        left = after;
        factor = second.wrapping_add(step);
        j += 2;
    }
    if j == i {
        table[from + side + i] = next_entry(left, factor, table[from + i], bitwidth);
    }
}

// Fills the whole table, row by row.
fn fill(kind: Kind, table: &mut [u64], side: usize, bitwidth: u32)
    requires { (0 < side) × (side ≤ 256) × (length table.old ≡ side * side) × (1 ≤ bitwidth) × (bitwidth ≤ 64) }
    ensures { table.new ≡ tabulate (length table.old) (entry kind bitwidth side) }
{
    tables::clear(table);
    table[0] = 1;
    let step = kind.factor_step();
    let mut from = 0;
    for i in 1..side {
        let first = kind.first_factor(i as u64);
        fill_row(table, side, from, i, first, step, bitwidth);
        from += side;
    }
}

// Fills a lent table or refuses it.
fn build(kind: Kind, max_degree: u8, bitwidth: u32, lent: &mut [u64]) -> Result<(), Refusal>
    ensures says { said_number result ≡ stirling_number max_degree bitwidth (length lent.old) }
    ensures leaves { lent.new ≡ stirling_left max_degree bitwidth (table kind max_degree bitwidth) lent.old }
{
    if !settings::width_fits(bitwidth) {
        return Err(Refusal::OutOfRange);
    }
    let side = max_degree as usize + 1;
    if lent.len() != side * side {
        return Err(Refusal::WrongLength);
    }
    fill(kind, lent, side, bitwidth);
    Ok(())
}

// Stirling numbers of the second kind to degree max_degree, modulo 2^bitwidth. Widths 2 to 64, else 11; (max_degree + 1)^2 cells, else 9.
// A refused table stays as it was. The three arguments come as C passes them.
pub fn build_stirling_second_kind(
    max_degree: u8,
    bitwidth: u32,
    lent: &mut [u64],
) -> Result<(), Refusal>
    ensures says { said_number result ≡ stirling_number max_degree bitwidth (length lent.old) }
    ensures leaves { lent.new ≡ stirling_left max_degree bitwidth (stirling2_table max_degree bitwidth) lent.old }
{
    build(Kind::Second, max_degree, bitwidth, lent)
}

// Signed Stirling numbers of the first kind, likewise.
pub fn build_stirling_first_kind(
    max_degree: u8,
    bitwidth: u32,
    lent: &mut [u64],
) -> Result<(), Refusal>
    ensures says { said_number result ≡ stirling_number max_degree bitwidth (length lent.old) }
    ensures leaves { lent.new ≡ stirling_left max_degree bitwidth (stirling1_table max_degree bitwidth) lent.old }
{
    build(Kind::First, max_degree, bitwidth, lent)
}
