// The answer of the fit: each column's value, reduced to its bound, in its cell of the box.
ghost use Rattle.std.specs.Prelude.{◌≡◌, cond, ◌%◌, ◌≤◌, eqb, length};
ghost use Rattle.meaning.specs.Tables.{at};
ghost use Rattle.meaning.specs.Boxes.{cells, cell, digits};
ghost use Rattle.meaning.specs.Values.{weight, bound};
ghost use Rattle.meaning.specs.Elimination.{joined};
ghost use Rattle.meaning.specs.Fit.{total, columns, fit_box_of, degree_used_of};

use crate::fit::Given;

// The twos in the factorials of the exponents. This sum and the total degree below are `mono`'s too, of a key, which has twenty exponents by value; here
// they are a slice of the columns' table, and the fit lies apart from `mono`.
fn factorial_twos(exps: &[u8]) -> u32
    requires { length exps.now ≤ 20 }
    ensures { result ≡ weight exps.now }
{
    exps.iter()
        .map(|e| math_utils::twos_in_factorial(*e as u32))
        .sum()
}

// A cell of the answer's box, by its exponents.
#[derive(Drop)]
struct Cell<'a> {
    degrees: &'a [u8],
    exps: &'a [u8],
    ghost within: { digits degrees.now (cell degrees.now exps.now) ≡ exps.now },
    ghost short: { length exps.now ≤ 20 },
    ghost small: { cells degrees.now ≤ 65536 },
}

impl Cell<'_> {
    // The number of the cell, from the last variable to the first.
    fn cell_number(&self) -> usize
        ensures { result ≡ cell self.now.degrees.now self.now.exps.now }
    {
        let mut number = 0;
        // a loop by index, and no fold over two lists: that the number is below the cells is a fact of the place of each turn
        for i in (0..self.degrees.len()).rev() {
            number = number * (self.degrees[i] as usize + 1) + self.exps[i] as usize;
        }
        number
    }

    // The sum of the exponents.
    fn total_degree(&self) -> u64
        ensures { result ≡ total self.now.exps.now }
    {
        self.exps.iter().map(|e| *e as u64).sum()
    }

    // The value modulo the bound 2^(bitwidth - q), which leaves 0 where q is bitwidth or more.
    fn coefficient(&self, value: u64, bitwidth: u32) -> u64
        requires { bitwidth ≤ 64 }
        ensures { result ≡ value % bound bitwidth self.now.exps.now }
    {
        let twos = factorial_twos(self.exps);
        if bitwidth <= twos {
            return 0;
        }
        value & arith::bitmask(bitwidth - twos)
    }

    // The total degree of the cell's coefficient, 0 where that is 0.
    fn degree_of(&self, reduced: u64) -> u64
        ensures { result ≡ cond (eqb reduced 0) 0 (total self.now.exps.now) }
    {
        if reduced == 0 {
            return 0;
        }
        self.total_degree()
    }
}

impl Given<'_> {
    // Fills the box with the coefficients: each column's value modulo its bound 2^(bitwidth - q) at the cell of its exponents, 0 elsewhere. `exponents` has
    // the exponents of the columns, one column behind the other: there is no heap for a list of lists. The result is the largest total degree among the
    // coefficients that are not 0.
    pub(crate) fn fill_answer(&self, exponents: &[u8], values: &[u64], out: &mut [u64]) -> u64
        requires out_len { length out.old ≡ cells self.now.degrees.now }
        requires exponents_value { let g = self.now in
            (exponents.now ≡ joined (columns g.degrees.now g.most)) × (length values.now ≡ length (columns g.degrees.now g.most)) }
        ensures says { let g = self.now in result ≡ degree_used_of g.degrees.now
            (fit_box_of g.bitwidth g.degrees.now (columns g.degrees.now g.most) (at values.now)) }
        ensures leaves { let g = self.now in out.new ≡ fit_box_of g.bitwidth g.degrees.now (columns g.degrees.now g.most) (at values.now) }
    {
        tables::clear(out);
        let variables = self.degrees.len();
        let mut highest = 0;
        for (c, value) in values.iter().enumerate() {
            // by place: of `chunks_exact` it would have to be shown anew, turn by turn, which part is lent
            let from = c * variables;
            let column = Cell {
                degrees: self.degrees,
                exps: &exponents[from..from + variables],
            };
            let reduced = column.coefficient(*value, self.bitwidth);
            let number = column.cell_number();
            out[number] = reduced;
            highest = highest.max(column.degree_of(reduced));
        }
        highest
    }
}
