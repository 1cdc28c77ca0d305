// The entries of the fit's matrix: the weight of a grid point times the falling factorials of its coordinates. Many of them are zero, and where a product is
// zero nothing is multiplied any further.
ghost use Rattle.std.specs.Prelude.{◌≡◌, true, ℕ, ◌+◌, ◌*◌, ◌%◌, ◌^◌, ◌≤◌, ◌<◌, length};
ghost use Rattle.meaning.specs.Tables.{at, tabulate};
ghost use Rattle.meaning.specs.Boxes.{cells};
ghost use Rattle.meaning.specs.Settings.{fits_width};
ghost use Rattle.meaning.specs.Elimination.{joined};
ghost use Rattle.meaning.specs.Fit.{columns};
ghost use Rattle.weighted_poly_fit.specs.Entries.{weighed, fallen, ZeroOn, Products, Tabled, column_entry, Columned, ZeroColumn};
ghost use Rattle.theory.specs.MatrixTables.{flat};

use crate::fit::Given;

// Fills the table with the falling factorials of the coordinates 0, 1, .., below `side`, to the exponents 0, 1, .., below `size`, modulo 2^bitwidth, one
// coordinate behind the other. Each stops at its first zero.
fn fill_products(table: &mut [u64], side: usize, size: usize, bitwidth: u32)
    requires { (length table.old ≡ side * size) × (fits_width bitwidth ≡ true) }
    ensures { table.new ≡ tabulate (length table.old) (flat size (fallen bitwidth)) }
{
    // rows by their place, here and below: of chunks that are lent to be written a proof learns the length alone
    for x in 0..side {
        let from = x * size;
        let row = &mut table[from..from + size];
        // not refused: the width fits
        let _ = math_utils::falling::falling_products(x as u64, bitwidth, row);
    }
}

// Multiplies the entries of a row by the weight, modulo 2^bitwidth, up to the first that is zero, from which on all are.
fn weigh(row: &mut [u64], weight: u64, bitwidth: u32)
    requires { ZeroOn row.old × (bitwidth ≤ 64) }
    ensures { row.new ≡ tabulate (length row.old) (λ e. (weight * at row.old e) % 2 ^ bitwidth) }
{
    let mask = arith::bitmask(bitwidth);
    for entry in row.iter_mut() {
        if *entry == 0 {
            return;
        }
        *entry = arith::wrapping_mul(*entry, weight) & mask;
    }
}

// A column of the matrix as it is filled: its exponents, and its place c among `cols`. `products` has the falling factorials, `size` of each coordinate.
#[derive(Drop)]
struct Column<'a> {
    exps: &'a [u8],
    products: &'a [u64],
    size: usize,
    cols: usize,
    c: usize,
    bitwidth: u32,
    ghost narrow: { bitwidth ≤ 64 },
    ghost inside: { c < cols },
    ghost holds: { Products bitwidth size products.now },
}

impl Column<'_> {
    // Fills the column in the rows of one variable, where it is zero: in the row of coordinate x the value times the falling factorial of x to the exponent e,
    // times the weight, modulo 2^bitwidth.
    fn fill_line(&self, matrix: &mut [u64], weights: &[u64], e: usize, value: u64)
        requires matrix_len { length matrix.old ≡ length weights.now * self.now.cols }
        requires e_lt_size { (e < self.now.size) × (length weights.now * self.now.size ≤ length self.now.products.now) }
        requires zero { ZeroColumn (length weights.now) self.now.cols self.now.c matrix.old }
        ensures { let k = self.now in
            Columned k.cols k.c (λ x. (at weights.now x * (value * fallen k.bitwidth x e)) % 2 ^ k.bitwidth) matrix.old matrix.new (length weights.now) }
    {
        let mask = arith::bitmask(self.bitwidth);
        // the fields as variables: read anew in each turn, since the matrix is written between, they cost a fit of 256 x 35 a fifth
        let (products, size) = (self.products, self.size);
        let (cols, c) = (self.cols, self.c);
        for (x, weight) in weights.iter().enumerate() {
            let product = arith::wrapping_mul(value, products[x * size + e]) & mask;
            if product != 0 {
                matrix[x * cols + c] = arith::wrapping_mul(product, *weight) & mask;
            }
        }
    }

    // Fills the column in the rows of a grid, where it is zero: in each row the value times the falling factorials of the coordinates to the exponents, times
    // the weight, modulo 2^bitwidth. It goes over the sub-boxes of the last variable, and into none where the product is zero.
    fn fill(&self, matrix: &mut [u64], weights: &[u64], grid: &[u8], value: u64)
        requires matrix_len { length matrix.old ≡ length weights.now * self.now.cols }
        requires weights_len { (length weights.now ≡ cells grid.now) × (0 < length grid.now) × (length grid.now ≤ length self.now.exps.now) }
        requires tabled { let k = self.now in Tabled grid.now k.exps.now k.size k.products.now × ZeroColumn (length weights.now) k.cols k.c matrix.old }
        ensures { let k = self.now in
            Columned k.cols k.c (column_entry k.bitwidth value grid.now k.exps.now weights.now) matrix.old matrix.new (length weights.now) }
    {
        let last = grid.len() - 1;
        let e = self.exps[last] as usize;
        if last == 0 {
            self.fill_line(matrix, weights, e, value);
            return;
        }
        let mask = arith::bitmask(self.bitwidth);
        let count = grid[last] as usize + 1;
        let rows = weights.len() / count;
        let (products, size, cols) = (self.products, self.size, self.cols);
        for x in 0..count {
            let product = arith::wrapping_mul(value, products[x * size + e]) & mask;
            if product != 0 {
                let from = x * rows;
                let end = from + rows;
                self.fill(
                    &mut matrix[from * cols..end * cols],
                    &weights[from..end],
                    &grid[..last],
                    product,
                );
            }
        }
    }
}

impl Given<'_> {
    // Multiplies each row of a table of falling factorials by its weight, modulo 2^bitwidth.
    fn weigh_rows(&self, matrix: &mut [u64])
        requires matrix_len { length matrix.old ≡ length self.now.weights.now * self.now.cols }
        requires matrix_value { matrix.old ≡ tabulate (length matrix.old) (flat self.now.cols (fallen self.now.bitwidth)) }
        ensures { let g = self.now in matrix.new ≡ tabulate (length matrix.old)
            (flat g.cols (λ i c. (at g.weights.now i * fallen g.bitwidth i c) % 2 ^ g.bitwidth)) }
    {
        // the fields as variables, here and in `fill_right`: read anew in each turn they cost a fit of 256 x 36 four instructions a row and more
        let (cols, bitwidth) = (self.cols, self.bitwidth);
        for (i, weight) in self.weights.iter().enumerate() {
            let from = i * cols;
            weigh(&mut matrix[from..from + cols], *weight, bitwidth);
        }
    }

    // Fills the matrix column by column, from zero. `columns` has the exponents of the columns, one column behind the other.
    fn fill_columns(&self, products: &[u64], columns: &[u8], matrix: &mut [u64])
        requires matrix_len { let g = self.now in (length matrix.old ≡ length g.weights.now * g.cols) × (length columns.now ≡ g.cols * length g.grid.now) }
        requires weights_len { let g = self.now in (length g.weights.now ≡ cells g.grid.now) × Products g.bitwidth g.size products.now }
        requires below { (i : ℕ) → i < length columns.now → at columns.now i < self.now.size }
        requires tabled { let g = self.now in (j : ℕ) → j < length g.grid.now → (at g.grid.now j + 1) * g.size ≤ length products.now }
        ensures { let g = self.now in matrix.new ≡ tabulate (length matrix.old) (flat g.cols (weighed g.bitwidth g.grid.now columns.now g.weights.now)) }
    {
        tables::clear(matrix);
        let variables = self.grid.len();
        // by place: a column is told its place c, and of `chunks_exact` it would have to be shown anew, turn by turn, which part is lent
        for c in 0..self.cols {
            let from = c * variables;
            let column = Column {
                exps: &columns[from..from + variables],
                products,
                size: self.size,
                cols: self.cols,
                c,
                bitwidth: self.bitwidth,
            };
            column.fill(matrix, self.weights, self.grid, 1);
        }
    }

    // Fills the matrix: the row of grid cell i has the weight of that cell times the falling factorials of its coordinates to the exponents of each column,
    // modulo 2^bitwidth. `exponents` has the exponents of the columns, one column behind the other. Of one variable each row has its own coordinate, and
    // column c the exponent c. Of more the coordinates recur, and `products`, `size` places for each coordinate below `side`, is filled with their falling
    // factorials first.
    pub(crate) fn fill_matrix(&self, products: &mut [u64], exponents: &[u8], matrix: &mut [u64])
        requires tables { let g = self.now in (length products.old ≡ g.side * g.size) × (length g.weights.now ≡ cells g.grid.now) }
        requires matrix_len { length matrix.old ≡ length self.now.weights.now * self.now.cols }
        requires listed { exponents.now ≡ joined (columns self.now.degrees.now self.now.most) }
        ensures { let g = self.now in matrix.new ≡ tabulate (length matrix.old) (flat g.cols (weighed g.bitwidth g.grid.now exponents.now g.weights.now)) }
    {
        if self.grid.len() == 1 {
            fill_products(matrix, self.weights.len(), self.cols, self.bitwidth);
            self.weigh_rows(matrix);
            return;
        }
        fill_products(products, self.side, self.size, self.bitwidth);
        self.fill_columns(products, exponents, matrix);
    }

    // Fills the right side with the targets modulo 2^bitwidth.
    pub(crate) fn fill_right(&self, right: &mut [u64])
        requires { length self.now.targets.now ≡ length right.old }
        ensures { right.new ≡ tabulate (length right.old) (λ i. at self.now.targets.now i % 2 ^ self.now.bitwidth) }
    {
        let targets = self.targets;
        let mask = arith::bitmask(self.bitwidth);
        // by place, which the invariant speaks of: a zip with the targets names none
        for (i, entry) in right.iter_mut().enumerate() {
            *entry = targets[i] & mask;
        }
    }
}
