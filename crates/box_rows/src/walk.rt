// The walk over the cells of a box, once for all that is done at cells (`Job`): line by line, or row by row where rows pay. From one entry of a line to the
// next the mask loses the twos in its number; the masks of the cells of a row are laid out once. Loops copy the job and the place, so that the compiler need
// not read them again behind each number that is written. The job and its written table are lent side by side: a struct that held both would need a clause in
// every function that its table stays the same one, and that all cells of a part are at hand speaks of both. The part does not hold the job either, which
// each sub-box would copy.
ghost use Rattle.std.specs.Prelude.{◌≡◌, ℕ, ◌+◌, ◌-◌, ◌^◌, ◌<◌, ◌≤◌, Bool, length, take};
ghost use Rattle.meaning.specs.Factorials.{factorial, twos};
ghost use Rattle.meaning.specs.Boxes.{cells, digits};
ghost use Rattle.meaning.specs.Values.{bound};
ghost use Rattle.box_rows.specs.Rows.{Laid};
ghost use Rattle.box_rows.specs.Jobs.{Done, Walked, AllAtHand};

use crate::layout;

// What is done at each cell: a number is put into the written table, or a test is made, which gathers what fails it.
pub(crate) trait Job: Copy {
    // Cell i lies in each table that is read, and in the written one, which has n numbers.
    ghost at_hand: { Self → ℕ → ℕ → Type 0 };

    // With bound m at cell i, what is left in the written table in the place of x.
    ghost left: { Self → ℕ → ℕ → ℕ → ℕ };

    // Whether cell i passes with bound m.
    ghost passes: { Self → ℕ → ℕ → Bool };

    // Does it at cell i, whose bound is one more than the mask. The result is what fails the test, 0 where nothing does. It takes three parameters, since a
    // struct of them would be made anew for each cell.
    fn cell(&self, table: &mut [u64], i: usize, mask: u64) -> u64
        requires { at_hand self.now (length table.old) i }
        ensures { (k : ℕ) → k ≤ 64 → mask ≡ 2 ^ k - 1
            → Done (left self.now) (passes self.now) (2 ^ k) i table.old table.new result };
}

// A box, or a sub-box: its cells are `count` ones from `from` on, and `bits` bits are left in it.
#[derive(Drop)]
pub(crate) struct Part<'a> {
    pub(crate) degrees: &'a [u8],
    pub(crate) from: usize,
    pub(crate) count: usize,
    pub(crate) bits: u32,
    pub(crate) ghost whole: { count ≡ cells degrees.now },
    pub(crate) ghost low: { from + count ≤ 65536 },
    pub(crate) ghost few: { bits ≤ 64 },
}

// The rows of a box: the degrees of its first variables, and the masks of a row's cells.
#[derive(Drop)]
struct Rows<'a> {
    row: &'a [u8],
    masks: &'a [u64],
    ghost room: { cells row.now ≤ length masks.now },
    ghost laid: { Laid row.now masks.now },
}

// A line, of one variable: to entry n are left the bits without the twos in n!. A box where no bits are left is one line.
fn line<J: Job>(job: &J, table: &mut [u64], from: usize, count: usize, bits: u32) -> bool
    requires low { from + count ≤ 65536 }
    requires few { bits ≤ 64 }
    requires hand { AllAtHand (J.at_hand job.now (length table.old)) from count }
    ensures { Walked (J.left job.now) (J.passes job.now) (λ n. 2 ^ (bits - twos (factorial n))) from count
        table.old table.new result }
{
    let own = *job;
    let mut mask = arith::bitmask(bits);
    let mut found = 0;
    for i in 0..count {
        found = found | own.cell(table, from + i, mask);
        mask = mask >> layout::twos_in(i + 1);
    }
    found == 0
}

// A row, where some bits are left.
fn row<J: Job>(job: &J, table: &mut [u64], part: &Part, rows: &Rows) -> bool
    requires some { 0 < part.now.bits }
    requires row { part.now.degrees.now ≡ rows.now.row.now }
    requires hand { AllAtHand (J.at_hand job.now (length table.old)) part.now.from part.now.count }
    ensures { Walked (J.left job.now) (J.passes job.now) (λ n. bound part.now.bits (digits part.now.degrees.now n))
        part.now.from part.now.count table.old table.new result }
{
    let own = *job;
    let from = part.from;
    let shift = 64 - part.bits;
    let mut found = 0;
    for (i, mask) in rows.masks[..part.count].iter().enumerate() {
        found = found | own.cell(table, from + i, *mask >> shift);
    }
    found == 0
}

// Two variables, line by line, up to the first line that fails: `boxes` with lines in the place of sub-boxes, which spares each line of a small box a call and
// the choice between row, line and box.
fn plane<J: Job>(job: &J, table: &mut [u64], part: &Part) -> bool
    requires two { length part.now.degrees.now ≡ 2 }
    requires hand { AllAtHand (J.at_hand job.now (length table.old)) part.now.from part.now.count }
    ensures { Walked (J.left job.now) (J.passes job.now) (λ n. bound part.now.bits (digits part.now.degrees.now n))
        part.now.from part.now.count table.old table.new result }
{
    let own = *job;
    let size = part.degrees[0] as usize + 1;
    let mut from = part.from;
    let mut left = part.bits;
    for e in 0..part.degrees[1] as usize + 1 {
        if !line(&own, table, from, size, left) {
            return false;
        }
        from += size;
        left = layout::bits_left(left, e + 1);
    }
    true
}

// A box whose first variables make the rows: each sub-box of the last variable in turn, up to the first that fails. Where no variable makes rows the walk
// ends at two variables, and where no bits are left at once.
fn boxes<J: Job>(job: &J, table: &mut [u64], part: &Part, rows: &Rows) -> bool
    requires begins { rows.now.row.now ≡ take (length rows.now.row.now) part.now.degrees.now }
    requires hand { AllAtHand (J.at_hand job.now (length table.old)) part.now.from part.now.count }
    ensures { Walked (J.left job.now) (J.passes job.now) (λ n. bound part.now.bits (digits part.now.degrees.now n))
        part.now.from part.now.count table.old table.new result }
{
    let degrees = part.degrees;
    if part.bits == 0 {
        return line(job, table, part.from, part.count, 0);
    }
    if degrees.len() == rows.row.len() {
        return row(job, table, part, rows);
    }
    if degrees.len() + rows.row.len() == 2 {
        return plane(job, table, part);
    }
    let last = degrees.len() - 1;
    let count = degrees[last] as usize + 1;
    let size = part.count / count;
    let mut from = part.from;
    let mut left = part.bits;
    for e in 0..count {
        let next = Part {
            degrees: &degrees[..last],
            from,
            count: size,
            bits: left,
        };
        if !boxes(job, table, &next, rows) {
            return false;
        }
        from += size;
        left = layout::bits_left(left, e + 1);
    }
    true
}

// A large box by rows, in a function by itself, so that small boxes do not pay for its table.
#[inline(never)]
fn by_rows<J: Job>(job: &J, table: &mut [u64], part: &Part) -> bool
    requires hand { AllAtHand (J.at_hand job.now (length table.old)) part.now.from part.now.count }
    ensures { Walked (J.left job.now) (J.passes job.now) (λ n. bound part.now.bits (digits part.now.degrees.now n))
        part.now.from part.now.count table.old table.new result }
{
    // There is no heap: room for the largest row, whose cells are lent.
    let mut masks = [0u64; 256];
    let first = layout::lay_out(&mut masks, part.degrees).unwrap();
    let rows = Rows {
        row: &part.degrees[..first],
        masks: &masks,
    };
    boxes(job, table, part, &rows)
}

// The whole box, by rows or without them. One variable is a line.
pub(crate) fn whole<J: Job>(job: &J, table: &mut [u64], part: &Part) -> bool
    requires hand { AllAtHand (J.at_hand job.now (length table.old)) part.now.from part.now.count }
    ensures { Walked (J.left job.now) (J.passes job.now) (λ n. bound part.now.bits (digits part.now.degrees.now n))
        part.now.from part.now.count table.old table.new result }
{
    if part.degrees.len() == 1 {
        return line(job, table, part.from, part.count, part.bits);
    }
    if layout::rows_pay(part.count, part.degrees) {
        return by_rows(job, table, part);
    }
    let rows = Rows {
        row: &part.degrees[..0],
        masks: &[0xffff_ffff_ffff_ffff],
    };
    boxes(job, table, part, &rows)
}
