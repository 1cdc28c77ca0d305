// Boxes row by row: sum, reduction, and the tests that all coefficients are below their bounds and that two boxes are equal modulo them, with no division and
// no call for a cell.
#![tactic(auto)]

ghost use Rattle.std.specs.Prelude.{◌≡◌, min, true, false, cond, ◌&&◌, length, ◌==◌, MatchOption};
ghost use Rattle.meaning.specs.Boxes.{cells};
ghost use Rattle.meaning.specs.Values.{bound, box_total, box_reduced};
ghost use Rattle.meaning.specs.Recovery.{every};
ghost use Rattle.box_rows.specs.Rows.{holds};
ghost use Rattle.box_rows.specs.Bounds.{is_below, is_equal};

mod jobs;
pub mod layout;
mod walk;

use jobs::{Agreement, Bounded, Reduction, Sum};
use walk::Part;

// The whole box in tables of n numbers, at a width cut at 64, if it has 65,536 cells at most and n is their number.
fn whole_box(degrees: &[u8], n: usize, bits: u32) -> Option<Part<'_>>
    ensures { MatchOption result (holds degrees.now n ≡ false)
        (λ p. (holds degrees.now n ≡ true) × (p.degrees.now ≡ degrees.now) × (p.from ≡ 0) × (p.count ≡ n) × (p.bits ≡ min bits 64)) }
{
    if (settings::TABLE_LIMIT as usize) < n
        || n as u64 != settings::count_cells(degrees, settings::TABLE_LIMIT)
    {
        return None;
    }
    Some(Part {
        degrees,
        from: 0,
        count: n,
        bits: bits.min(64),
    })
}

// Fills `out` with the sum of two boxes of coefficients, cell by cell, each kept to bits - q bits, q being the twos in the factorials of its exponents, and 0
// where that is no bit. A width above 64 counts as 64. Where the box has more than 65,536 cells, or a table has not one number for each cell, `out` is as
// it was.
pub fn sum(a: &[u64], b: &[u64], degrees: &[u8], bits: u32, out: &mut [u64])
    ensures { out.new ≡ cond (length a.now == length out.old && (length b.now == length out.old)
        && holds degrees.now (length out.old))
        (box_total (bound (min bits 64)) degrees.now a.now b.now) out.old }
{
    if a.len() != out.len() {
        return;
    }
    if b.len() != out.len() {
        return;
    }
    if let Some(all) = whole_box(degrees, out.len(), bits) {
        walk::whole(&Sum { a, b }, out, &all);
    }
}

// Takes each coefficient of a box modulo its bound 2^(bits - q), in place; a width above 64 counts as 64. Where the box has more than 65,536 cells, or the
// table has not one number for each cell, it is as it was.
pub fn reduce(table: &mut [u64], degrees: &[u8], bits: u32)
    ensures { table.new ≡ cond (holds degrees.now (length table.old))
        (box_reduced (bound (min bits 64)) degrees.now table.old) table.old }
{
    if let Some(all) = whole_box(degrees, table.len(), bits) {
        walk::whole(&Reduction, table, &all);
    }
}

// Whether every coefficient of a box is below its bound 2^(bits - q), read whole; a width above 64 counts as 64. No where the box has more than 65,536
// cells, or there is not one coefficient for each cell.
pub fn bounded(coeffs: &[u64], degrees: &[u8], bits: u32) -> bool
    ensures { result ≡ (holds degrees.now (length coeffs.now)
        && every (cells degrees.now) (is_below (min bits 64) degrees.now coeffs.now)) }
{
    let Some(all) = whole_box(degrees, coeffs.len(), bits) else {
        return false;
    };
    walk::whole(&Bounded { coeffs }, &mut [], &all)
}

// Whether two boxes of coefficients are equal cell by cell modulo the cells' bounds 2^(bits - q); a width above 64 counts as 64. No where the box has more
// than 65,536 cells, or a table has not one number for each cell.
pub fn agree(a: &[u64], b: &[u64], degrees: &[u8], bits: u32) -> bool
    ensures { result ≡ (length b.now == length a.now && holds degrees.now (length a.now)
        && every (cells degrees.now) (is_equal (min bits 64) degrees.now a.now b.now)) }
{
    if b.len() != a.len() {
        return false;
    }
    let Some(all) = whole_box(degrees, a.len(), bits) else {
        return false;
    };
    walk::whole(&Agreement { a, b }, &mut [], &all)
}
