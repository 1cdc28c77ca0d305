// The bits of the cells of a row. The first variables of a box, as many as have 256 cells or fewer together, make its rows: the mask of each cell of a row,
// 2^(64 - q) - 1 with q the twos in the factorials of its exponents, is laid out once. In a row where `bits` bits are left it is shifted right by 64 - bits.
// The numbers are lent beside the table that they are laid out in: a struct of both would need a clause in every function that its table stays the same one.
ghost use Rattle.std.specs.Prelude.{◌≡◌, ℕ, suc, ◌+◌, ◌-◌, ◌*◌, ◌/◌, ◌%◌, ◌^◌, ◌<◌, ◌≤◌, cond, leb, List, [], ◌∷◌, ◌++◌, length, take, if◌then◌else◌, nat_le};
ghost use Rattle.std.specs.Int.Count.{count_trailing_zeros};
ghost use Rattle.meaning.specs.Factorials.{twos};
ghost use Rattle.meaning.specs.Boxes.{cells};
ghost use Rattle.theory.specs.Tables.{Filled};
ghost use Rattle.box_rows.specs.Rows.{mask, mask_zeroth, mask_more, row_variables, laid_out};
ghost use Rattle.box_rows.specs.Layouts.{cell_number_of, numbered};

// The twos in n.
pub(crate) fn twos_in(n: usize) -> u32
    requires { 0 < n }
    ensures twos { result ≡ twos n }
    ensures small { result < 64 }
{
    (n as u64).trailing_zeros()
}

// The bits that are left of `bits` without the twos in n, 0 where there are no more. They are all left at 0.
pub fn bits_left(bits: u32, n: usize) -> u32
    ensures { result ≡ bits - twos n }
{
    if n == 0 {
        return bits;
    }
    bits.saturating_sub(twos_in(n))
}

// A mask without the twos in n; it is the same at 0.
pub fn next_mask(mask: u64, n: usize) -> u64
    ensures { result ≡ mask / 2 ^ twos n }
{
    if n == 0 {
        return mask;
    }
    mask >> twos_in(n)
}

// The numbers of the cells of a row that is laid out variable by variable: here the masks, in `multivar_poly_recovery` the inverses of odd parts of factorials.
pub trait CellNumbers {
    // The number of a cell with the given exponents.
    ghost number: { Self → List ℕ → ℕ };

    // What an exponent brings to the numbers of all its cells.
    ghost part: { Self → ℕ → ℕ };

    // The number of a cell, from that of the cell with exponent 0 in the last place, that of the cell with the exponent before, and the part of its own.
    ghost next: { Self → ℕ → ℕ → ℕ → ℕ };

    // The number of the cell without exponents.
    fn start(&self) -> u64
        ensures { result ≡ number self.now [] };

    fn part(&self, e: usize) -> u64
        ensures { result ≡ part self.now e };

    fn next(&self, first: u64, before: u64, own: u64) -> u64
        ensures { result ≡ next self.now first before own };

    // An exponent 0 at the end does not count.
    ghost zeroth: { (x : Self) (es : List ℕ) → number x (es ++ (0 ∷ [])) ≡ number x es };

    // Any other does what `next` says.
    ghost more: { (x : Self) (es : List ℕ) (e : ℕ) → 0 < e → e < 2 ^ 64
        → number x (es ++ (e ∷ [])) ≡ next x (number x es) (number x (es ++ ((e - 1) ∷ []))) (part x e) };
}

// The masks: each exponent has that of the one before without its twos. The part of 0 is 64, which no cell takes.
struct Masks;

impl CellNumbers for Masks {
    ghost number = { λ x. mask };

    ghost part = { λ x. count_trailing_zeros 64 };

    ghost next = { λ x first before t. before / 2 ^ (t % 64) };

    fn start(&self) -> u64 {
        0xffff_ffff_ffff_ffff
    }

    fn part(&self, e: usize) -> u64 {
        e.trailing_zeros() as u64
    }

    fn next(&self, first: u64, before: u64, own: u64) -> u64 {
        before >> (own % 64)
    }

    ghost zeroth = { λ x. mask_zeroth };

    ghost more = { λ x. mask_more };
}

// The cells of exponent e, `size` of them from `from` on, put behind those of the exponents before.
fn next_cells<N: CellNumbers>(numbers: &N, table: &mut [u64], size: usize, from: usize, e: usize)
    requires { (0 < e) × (from ≡ e * size) × (from + size ≤ length table.old) }
    ensures { (d : ℕ) (ds t₀ : List ℕ) → e ≤ d → size ≡ cells ds
        → Filled (cell_number_of (N.number numbers.now) (ds ++ (d ∷ []))) t₀ table.old from
        → Filled (cell_number_of (N.number numbers.now) (ds ++ (d ∷ []))) t₀ table.new (from + size) }
{
    let before = from - size;
    let own = numbers.part(e);
    for r in 0..size {
        table[from + r] = numbers.next(table[r], table[before + r], own);
    }
}

// The numbers of a row with a variable of degree d more, where they are those of the `size` cells without it. The result is the number of cells.
fn add_variable<N: CellNumbers>(numbers: &N, table: &mut [u64], size: usize, d: u8) -> usize
    requires { size * suc d ≤ length table.old }
    ensures cells { result ≡ size * suc d }
    ensures numbers { (ds t₀ : List ℕ) → size ≡ cells ds → Filled (cell_number_of (N.number numbers.now) ds) t₀ table.old size
        → Filled (cell_number_of (N.number numbers.now) (ds ++ (d ∷ []))) t₀ table.new result }
{
    let mut from = size;
    for e in 1..d as usize + 1 {
        next_cells(numbers, table, size, from, e);
        from += size;
    }
    from
}

// Whether rows are the quicker way for a box of n cells; either way serves. They pay above 64 cells, but for lines of ten numbers or more only above 256.
pub(crate) fn rows_pay(n: usize, degrees: &[u8]) -> bool {
    64 < n && (256 < n || degrees.first().is_none_or(|d| *d < 9))
}

// Lays out the numbers of a row of the first variables, as many as have 256 cells or fewer together; the entries behind the cells of a row are as they were.
// The result is how many variables these are. A table of fewer than 256 entries is left as it was, and there is no result.
pub fn lay_out_numbers<N: CellNumbers>(
    numbers: &N,
    table: &mut [u64],
    degrees: &[u8],
) -> Option<usize>
    ensures variables { result ≡ (if leb 256 (length table.old) then Some (row_variables 1 degrees.now) else None) }
    ensures numbers { table.new ≡ cond (nat_le 256 (length table.old))
        (numbered (N.number numbers.now) (take (row_variables 1 degrees.now) degrees.now) table.old) table.old }
{
    if table.len() < 256 {
        return None;
    }
    table[0] = numbers.start();
    let mut size = 1;
    for (i, d) in degrees.iter().enumerate() {
        if 256 < size * (*d as usize + 1) {
            return Some(i);
        }
        size = add_variable(numbers, table, size, *d);
    }
    Some(degrees.len())
}

// Lays out the masks of a row, as `lay_out_numbers` does.
pub fn lay_out(masks: &mut [u64], degrees: &[u8]) -> Option<usize>
    ensures variables { result ≡ (if leb 256 (length masks.old) then Some (row_variables 1 degrees.now) else None) }
    ensures masks { masks.new ≡ cond (nat_le 256 (length masks.old))
        (laid_out (take (row_variables 1 degrees.now) degrees.now) masks.old) masks.old }
{
    lay_out_numbers(&Masks, masks, degrees)
}
