// From Newton's differences to the coefficients of the falling factorials, in place. The variables are taken from the last on: the cells of one exponent of
// the last variable are a part of the table, for which the bits that are left and the inverse so far are handed on. In a large box the first variables,
// as many as have 256 cells or fewer together, make rows: for each cell of a row the mask and the inverse are laid out once. In a small one the walk ends
// at lines, along which the mask loses its bits. Each walk ends at the first difference that is not divisible as it has to be, with `None`. The table
// and the degrees are two parameters: each function cuts both anew. The walk is no `Job` of box_rows: there a cell has its mask alone, and here it needs an
// inverse beside the bits that are left. Loops have an index, which their invariants speak of: a loop over `zip` has none, and of parts that an iterator
// lends no proof knows what they end as.
ghost use Rattle.std.specs.Prelude.{◌≡◌, ℕ, suc, ◌-◌, ◌*◌, ◌/◌, ◌%◌, ◌^◌, ◌<◌, ◌≤◌, min, cond, List, [], ◌∷◌, length, take, ◌==◌};
ghost use Rattle.std.specs.Option.{is_some};
ghost use Rattle.meaning.specs.Factorials.{twos};
ghost use Rattle.meaning.specs.Tables.{tabulate, at};
ghost use Rattle.meaning.specs.Boxes.{cells, digits};
ghost use Rattle.meaning.specs.Recovery.{every, divides, coefficient};
ghost use Rattle.answers.specs.Said.{said_number};
ghost use Rattle.box_rows.specs.Rows.{Laid};
ghost use Rattle.multivar_poly_recovery.specs.Extracted.{Extracted, Promise, Mask, Inverses, Inverted, Reaching, cell_of};

use crate::units;
use crate::units::OddInverses;
use answers::Refusal;
use box_rows::layout;

// The low bits of a coefficient that count: how many, and the mask of them.
#[derive(Clone, Copy, Debug, PartialEq, Eq)]
struct Low {
    bits: u32,
    ones: u64,
    ghost mask: { ones ≡ 2 ^ bits - 1 },
}

impl Low {
    // All of them.
    fn all(bits: u32) -> Low
        requires { bits ≤ 64 }
        ensures { result.bits ≡ bits }
    {
        Low {
            bits,
            ones: arith::bitmask(bits),
        }
    }

    // Those of a mask.
    fn of(ones: u64) -> Low
        requires { Mask 64 ones }
        ensures { (b : ℕ) → b ≤ 64 → ones ≡ 2 ^ b - 1 → result.bits ≡ b }
    {
        Low {
            bits: ones.wrapping_add(1).trailing_zeros(),
            ones,
        }
    }

    // Without the twos in n.
    fn without(self, n: usize) -> Low
        ensures { result.bits ≡ self.bits - twos n }
    {
        Low {
            bits: layout::bits_left(self.bits, n),
            ones: layout::next_mask(self.ones, n),
        }
    }
}

// What the exponents of the variables behind a part of the box leave to it: so many bits of the width, and the inverse modulo 2^64 of the odd part of their
// factorials.
#[derive(Clone, Copy, Debug, PartialEq, Eq)]
struct Left {
    width: u32,
    bits: u32,
    inverse: u64,
    ghost few: { bits ≤ width },
    ghost high: { width ≤ 64 },
}

// The tables of a box: the inverses by exponent, and of its first variables, which make its rows, the degrees, and for each cell of a row the mask and the
// inverse.
#[derive(Clone, Copy, Debug, PartialEq, Eq)]
struct Tables<'a> {
    inverses: &'a [u64],
    row: &'a [u8],
    masks: &'a [u64],
    units: &'a [u64],
    ghost serve: { Inverses inverses.now },
    ghost masked: { cells row.now ≤ length masks.now },
    ghost laid: { Laid row.now masks.now },
    ghost room: { cells row.now ≤ length units.now },
    ghost inverts: { Inverted row.now units.now },
}

impl Left {
    // To the whole box, behind which there is no variable.
    fn whole(width: u32) -> Left
        requires { width ≤ 64 }
        ensures { (result.width ≡ width) × (result.bits ≡ width) × (result.inverse ≡ 1) }
    {
        Left {
            width,
            bits: width,
            inverse: 1,
        }
    }

    // To the part of one exponent of the last variable, which has the given inverse and leaves so many bits.
    fn sub_box(self, bits: u32, inverse: u64) -> Left
        requires { bits ≤ self.bits }
        ensures { (result.width ≡ self.width) × (result.bits ≡ bits) × (result.inverse ≡ (self.inverse * inverse) % 2 ^ 64) }
    {
        Left {
            width: self.width,
            bits,
            inverse: arith::wrapping_mul(self.inverse, inverse),
        }
    }

    // The bits of a cell whose mask at its place in a row is given.
    fn low(self, mask: u64) -> Low
        requires { Mask 64 mask }
        ensures few { result.bits ≤ self.bits }
        ensures counted { (b : ℕ) → mask / 2 ^ (64 - self.bits) ≡ 2 ^ b - 1 → b ≤ 64 → result.bits ≡ b }
    {
        if self.bits == 0 {
            return Low::of(0);
        }
        Low::of(mask >> (64 - self.bits))
    }

    // The coefficient of the difference x modulo 2^width: over 2^q and times the unit, modulo 2^(width - q), where 2^q divides it; where q is the width or
    // more, 0 if it is 0. So many low bits are left of the width.
    fn coefficient(self, x: u64, low: Low, unit: u64) -> Option<u64>
        requires { low.bits ≤ self.width }
        ensures { (q : ℕ) → low.bits ≡ self.width - q
            → result ≡ cell_of (x % 2 ^ self.width % 2 ^ min q self.width == 0) ((x % 2 ^ self.width / 2 ^ q * unit) % 2 ^ (self.width - q)) }
    {
        let kept = x & arith::bitmask(self.width);
        if low.ones == 0 {
            if kept == 0 {
                return Some(0);
            }
            return None;
        }
        let q = self.width - low.bits;
        let high = kept >> q;
        if high << q != kept {
            return None;
        }
        Some(arith::wrapping_mul(high, unit) & low.ones)
    }

    // One row: each difference is replaced by its coefficient.
    fn row(self, part: &mut [u64], tables: &Tables) -> Option<()>
        requires { length part.old ≡ cells tables.now.row.now }
        ensures { Promise self.bits self.inverse self.width tables.now.row.now part.old part.new (is_some result) }
    {
        let masks = tables.masks;
        let units = tables.units;
        for (i, x) in part.iter_mut().enumerate() {
            let unit = arith::wrapping_mul(self.inverse, units[i]);
            *x = self.coefficient(*x, self.low(masks[i]), unit)?;
        }
        Some(())
    }

    // One line: the same, with bits that lose the twos in its number from one entry to the next.
    fn line(self, part: &mut [u64], inverses: &OddInverses) -> Option<()>
        requires { length part.old ≤ length inverses.now.table.now }
        ensures { (d : ℕ) → length part.old ≡ suc d
            → Promise self.bits self.inverse self.width (d ∷ []) part.old part.new (is_some result) }
    {
        let table = inverses.table;
        let mut low = Low::all(self.bits);
        for (i, x) in part.iter_mut().enumerate() {
            let unit = arith::wrapping_mul(self.inverse, table[i]);
            *x = self.coefficient(*x, low, unit)?;
            low = low.without(i + 1);
        }
        Some(())
    }

    // Two variables, line by line: `boxes` with lines in the place of sub-boxes, which spares each line of a small box a call and the choice between row, line
    // and box (docs/SPEED.md, Recovery).
    fn plane(self, part: &mut [u64], first: u8, last: u8, inverses: &OddInverses) -> Option<()>
        requires { (length part.old ≡ suc last * suc first) × (first < length inverses.now.table.now) × (last < length inverses.now.table.now) }
        ensures { Promise self.bits self.inverse self.width (first ∷ (last ∷ [])) part.old part.new (is_some result) }
    {
        let size = first as usize + 1;
        let mut bits = self.bits;
        let mut from = 0;
        for e in 0..last as usize + 1 {
            let end = from + size;
            self.sub_box(bits, inverses.table[e])
                .line(&mut part[from..end], inverses)?;
            from = end;
            bits = layout::bits_left(bits, e + 1);
        }
        Some(())
    }

    // The box of the variables of `degrees`, of which the first ones make rows: each sub-box of the last variable in turn. Where no variable makes rows the
    // walk ends at two variables.
    fn boxes(self, part: &mut [u64], degrees: &[u8], tables: &Tables) -> Option<()>
        requires part_len { length part.old ≡ cells degrees.now }
        requires begins { tables.now.row.now ≡ take (length tables.now.row.now) degrees.now }
        requires reach { Reaching degrees.now (length tables.now.inverses.now) }
        ensures { Promise self.bits self.inverse self.width degrees.now part.old part.new (is_some result) }
    {
        let inverses = tables.inverses;
        if degrees.len() == tables.row.len() {
            return self.row(part, tables);
        }
        if degrees.len() == 1 {
            return self.line(part, &OddInverses { table: inverses });
        }
        if degrees.len() + tables.row.len() == 2 {
            let inverses = OddInverses { table: inverses };
            return self.plane(part, degrees[0], degrees[1], &inverses);
        }
        let last = degrees.len() - 1;
        let count = degrees[last] as usize + 1;
        let size = part.len() / count;
        let mut bits = self.bits;
        let mut from = 0;
        for e in 0..count {
            let end = from + size;
            let left = self.sub_box(bits, inverses[e]);
            left.boxes(&mut part[from..end], &degrees[..last], tables)?;
            from = end;
            bits = layout::bits_left(bits, e + 1);
        }
        Some(())
    }
}

// A box by rows, in a function by itself, so that small boxes do not pay for its tables. `Left` is made here and in the next function: handed to them, it hides
// from the compiler that the inverse is 1, and a line of 16 takes 5 percent longer. A struct of degrees and width would save one of two clauses, since that of
// the table's length would be left: no plainer.
#[inline(never)]
fn by_rows(table: &mut [u64], degrees: &[u8], bitwidth: u32) -> Option<()>
    requires { (length table.old ≡ cells degrees.now) × (bitwidth ≤ 64) }
    ensures { Extracted bitwidth degrees.now [] table.old table.new (is_some result) }
{
    let inverses = math_utils::odd_factors::odd_factorial_inverses();
    // There is no heap: room for the largest row, whose cells are lent.
    let mut masks = [0u64; 256];
    let mut units = [0u64; 256];
    let first = layout::lay_out(&mut masks, degrees).unwrap();
    layout::lay_out_numbers(&OddInverses { table: &inverses }, &mut units, degrees);
    let row = &degrees[..first];
    let tables = Tables {
        inverses: &inverses,
        row,
        masks: &masks,
        units: &units,
    };
    Left::whole(bitwidth).boxes(table, degrees, &tables)
}

// A box by lines, where no degree is above 15.
fn by_lines(table: &mut [u64], degrees: &[u8], bitwidth: u32) -> Option<()>
    requires { (length table.old ≡ cells degrees.now) × (bitwidth ≤ 64) × Reaching degrees.now 16 }
    ensures { Extracted bitwidth degrees.now [] table.old table.new (is_some result) }
{
    let inverses = units::first_inverses();
    if degrees.len() == 1 {
        return Left::whole(bitwidth).line(table, &OddInverses { table: &inverses });
    }
    let tables = Tables {
        inverses: &inverses,
        row: &degrees[..0],
        masks: &[0xffff_ffff_ffff_ffff],
        units: &[1],
    };
    Left::whole(bitwidth).boxes(table, degrees, &tables)
}

// By rows above 256 cells, and where a degree is above 15, for which the short table has no inverse.
fn whole(table: &mut [u64], degrees: &[u8], bitwidth: u32) -> Option<()>
    requires { (length table.old ≡ cells degrees.now) × (bitwidth ≤ 64) }
    ensures { Extracted bitwidth degrees.now [] table.old table.new (is_some result) }
{
    if 256 < table.len() || !units::below_16(degrees) {
        return by_rows(table, degrees, bitwidth);
    }
    by_lines(table, degrees, bitwidth)
}

// The coefficients from Newton's differences, in place. `table` has a difference for each cell of the box of `degrees`, first variable fastest, read
// modulo 2^bitwidth, for widths to 64. Accepted where every difference is divisible as it has to be; the table then has the coefficients. Else it is
// refused for 6, and the table has zeros.
pub(crate) fn extract(table: &mut [u64], degrees: &[u8], bitwidth: u32) -> Result<(), Refusal>
    requires { (length table.old ≡ cells degrees.now) × (bitwidth ≤ 64) }
    ensures says { said_number result ≡ cond (every (cells degrees.now)
        (λ n. divides bitwidth (digits degrees.now n) (at table.old n % 2 ^ bitwidth))) 0 6 }
    ensures leaves { table.new ≡ cond (every (cells degrees.now)
        (λ n. divides bitwidth (digits degrees.now n) (at table.old n % 2 ^ bitwidth)))
        (tabulate (cells degrees.now) (λ n. coefficient bitwidth (digits degrees.now n) (at table.old n % 2 ^ bitwidth)))
        (tabulate (cells degrees.now) (λ n. 0)) }
{
    if whole(table, degrees, bitwidth).is_none() {
        tables::clear(table);
        return Err(Refusal::NotDivisible);
    }
    Ok(())
}
