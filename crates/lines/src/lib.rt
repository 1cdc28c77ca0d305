// Transforms of lines, done to a flat table along one variable after the other, in place and modulo 2^64. The first variable's exponent counts fastest:
// along a variable with stride s and degree d the table is cut into blocks of s * (d + 1) numbers, each of s interleaved lines.
#![tactic(auto)]

ghost use Rattle.std.specs.Prelude.{◌≡◌, ℕ, suc, ◌*◌, ◌%◌, ◌^◌, ◌<◌, ◌≤◌, cond, length, ◌==◌};
ghost use Rattle.meaning.specs.Tables.{tabulate, at};
ghost use Rattle.meaning.specs.Boxes.{cells};
ghost use Rattle.lines.specs.FlatTables.{blocked};
ghost use Rattle.lines.specs.Blocks.{size, block_of};
ghost use Rattle.lines.specs.Transforms.{transformed, transformed_each};

mod block;
mod differences;
mod falling;
mod fours;
mod powers;
mod transform;

pub use block::Block;
pub use differences::Differences;
pub use falling::ToFalling;
pub use powers::ToPowers;
pub use transform::{FourTransform, LineTransform, OfNumber};

// Whether the box of `degrees` has as many cells as the table has numbers. `settings` counts cells too, to a limit: this count ends at the table's length, and
// needs no crate of refusals.
pub fn has_box(table: &[u64], degrees: &[u8]) -> bool
    ensures { result ≡ (length table.now == cells degrees.now) }
{
    let mut size: usize = 1;
    for degree in degrees {
        let Some(next) = size.checked_mul(*degree as usize + 1) else {
            return false;
        };
        if table.len() < next {
            return false;
        }
        size = next;
    }
    table.len() == size
}

// Every line of a block. Lines of degree 3 go without a loop.
fn transform_block<T: LineTransform>(transform: T, part: &mut [u64], block: Block)
    requires { length part.old ≡ size block }
    ensures { part.new ≡ block_of (T.line transform (2 ^ 64)) block part.old }
{
    if block.degree == 3 {
        fours::four_rows(transform, part, block.stride);
    } else {
        transform.block(part, block);
    }
}

// The lines of a first variable, where there is a way of their own: whether there is.
fn transform_first<T: LineTransform>(transform: T, table: &mut [u64], degree: u8) -> bool
    requires { (suc degree ≤ length table.old) × (length table.old % suc degree ≡ 0) }
    ensures { table.new ≡ cond result (tabulate (length table.old) (blocked (T.line transform (2 ^ 64)) 1 degree (at table.old))) table.old }
{
    if degree == 3 {
        fours::four_neighbours(transform, table);
        return true;
    }
    transform.neighbours(table, degree)
}

// Every block of a table, along the variable with the given stride and degree. The result is the next variable's stride.
fn transform_variable<T: LineTransform>(
    transform: T,
    table: &mut [u64],
    stride: usize,
    degree: u8,
) -> usize
    requires { (0 < stride) × (stride * suc degree ≤ length table.old) × (length table.old % (stride * suc degree) ≡ 0) }
    ensures stride { result ≡ stride * suc degree }
    ensures leaves { table.new ≡ tabulate (length table.old) (blocked (T.line transform (2 ^ 64)) stride degree (at table.old)) }
{
    let block = Block {
        stride,
        degree: degree as usize,
    };
    let size = stride * (block.degree + 1);
    if transform.leaves_lines(degree) {
        return size;
    }
    if stride == 1 && transform_first(transform, table, degree) {
        return size;
    }
    // An index by hand, as in fours.rt: short blocks would pay for `step_by`.
    let mut from = 0;
    while size <= table.len() - from {
        let end = from + size;
        transform_block(transform, &mut table[from..end], block);
        from = end;
    }
    size
}

// Along every variable, the first one first, each by the transform that `along` gives for it. A table that has no number for each cell of the box of
// `degrees` is left as it was.
fn walk<T: LineTransform, F>(along: F, table: &mut [u64], degrees: &[u8])
where
    F: Fn(usize) -> T,
    requires { F.IsAlwaysCallable along }
    ensures { (ts : ℕ → T) → ((i : ℕ) (t : T) → F.post along i t → t ≡ ts i) → table.new ≡ cond (length table.old == cells degrees.now)
        (transformed_each (λ i. T.line (ts i) (2 ^ 64)) degrees.now table.old) table.old }
{
    if !has_box(table, degrees) {
        return;
    }
    let mut stride = 1;
    for (variable, degree) in degrees.iter().enumerate() {
        stride = transform_variable(along(variable), table, stride, *degree);
    }
}

// Transforms the table, which has a number for each cell of the box of `degrees`, along every variable, the first one first. A table of any other
// length is left as it was. A narrower width is read off the result, since its modulus divides 2^64.
pub fn transform_all<T: LineTransform>(transform: T, table: &mut [u64], degrees: &[u8])
    ensures { table.new ≡ cond (length table.old == cells degrees.now)
        (transformed (T.line transform) (2 ^ 64) degrees.now table.old) table.old }
{
    walk(|_variable| transform, table, degrees);
}

// The same with a transform for each variable, given by its number: 0 where there is none.
pub fn transform_each<T: OfNumber>(numbers: &[u64], table: &mut [u64], degrees: &[u8])
    ensures { table.new ≡ cond (length table.old == cells degrees.now)
        (transformed_each (λ i. T.line (T.given (at numbers.now i)) (2 ^ 64)) degrees.now table.old) table.old }
{
    walk(
        |variable: usize| T::of(numbers.get(variable).copied().unwrap_or(0)),
        table,
        degrees,
    );
}
