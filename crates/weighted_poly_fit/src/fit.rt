// The weighted fit: coefficients of falling factorials whose value at each grid point, times the weight there, is the target there, modulo 2^w.
ghost use Rattle.std.specs.Prelude.{◌≡◌, cond, ◌+◌, ◌*◌, ◌≤◌, eqb};
ghost use Rattle.meaning.specs.Fit.{fit_of, fit_lengths};
ghost use Rattle.settings.specs.Forms.{degrees_of};
ghost use Rattle.room.specs.Sizes.{answer_of, grid_of};
ghost use Rattle.weighted_poly_fit.specs.Fitting.{Shaped, Counted, Exact, Fitted, lengths_cause};
ghost use Rattle.weighted_poly_fit.specs.Fits.{Called, Fits};
ghost use Rattle.answers.specs.Said.{said};

use answers::Refusal;
use room::sizes;
use room::sizes::FitSettings;

// What the parts of a fit are given, once its settings pass: the tables that are fitted to, with an entry for each of the `rows` grid points; the degrees of
// the answer's box, all below `size`, and those of the grid, with two variables or more all below `side`; the highest sum of exponents, with the `cols`
// columns that it leaves; and the width. The scratch tables and the output are lent beside it, each by itself: as fields of a struct each would need a clause,
// in every contract that it passes, that it is the same reference still. So their lengths are no fact of the struct, and the functions that fill the matrix
// each ask that it has `cols` entries for each weight.
#[derive(Drop)]
pub(crate) struct Given<'a> {
    pub(crate) weights: &'a [u64],
    pub(crate) targets: &'a [u64],
    pub(crate) degrees: &'a [u8],
    pub(crate) grid: &'a [u8],
    pub(crate) most: u8,
    pub(crate) rows: usize,
    pub(crate) cols: usize,
    pub(crate) side: usize,
    pub(crate) size: usize,
    pub(crate) bitwidth: u32,
    ghost shaped: { Shaped bitwidth side size degrees.now grid.now },
    ghost counted: { Counted rows cols most degrees.now grid.now },
}

impl Given<'_> {
    ghost use Rattle.weighted_poly_fit.specs.Asked.{given_fit};

    // A fit whose tables have their exact lengths, with room for so many columns, falling factorials and exponents: there is no heap, so the rooms are arrays, of
    // which the part that is needed is lent. Matrix and right side end as zeros. It is not inlined, so that a fit with little room has no frame with much.
    #[inline(never)]
    fn fit_within<const COLUMNS: usize, const PRODUCTS: usize, const EXPONENTS: usize>(
        &self,
        matrix: &mut [u64],
        right: &mut [u64],
        out: &mut [u64],
    ) -> Result<u64, Refusal>
        requires exact { Exact (given_fit self.now matrix.old right.old out.old) self.now.cols }
        requires enough { (self.now.cols ≤ COLUMNS) × (self.now.side * self.now.size ≤ PRODUCTS) × (COLUMNS * 20 ≤ EXPONENTS) }
        requires small { (COLUMNS ≤ 256) × (PRODUCTS ≤ 362) × (EXPONENTS ≤ 5120) }
        ensures { Fitted (given_fit self.now matrix.old right.old out.old) 0 matrix.new right.new out.new (said result) }
    {
        let mut products_room = [0u64; PRODUCTS];
        let mut exponents_room = [0u8; EXPONENTS];
        let mut values_room = [0u64; COLUMNS];
        let products = &mut products_room[..self.side * self.size];
        let exponents = &mut exponents_room[..self.cols * self.degrees.len()];
        let values = &mut values_room[..self.cols];
        self.fill_system(products, exponents, matrix, right);
        let found = self.answer_system(exponents, matrix, right, values, out);
        tables::clear(matrix);
        tables::clear(right);
        found
    }

    // Whether every table has its exact length.
    fn lengths_fit(&self, matrix: &[u64], right: &[u64], out: &[u64]) -> bool
        ensures { result ≡ fit_lengths (given_fit self.now matrix.now right.now out.now) }
    {
        let cells = settings::count_cells(self.degrees, settings::TABLE_LIMIT) as usize;
        self.weights.len() == self.rows
            && self.targets.len() == self.rows
            && matrix.len() == self.rows * self.cols
            && right.len() == self.rows
            && out.len() == cells
    }

    // A fit whose settings pass, with the room that it needs. Turned down for 9, with the tables left as they were.
    fn fit_box(
        &self,
        matrix: &mut [u64],
        right: &mut [u64],
        out: &mut [u64],
    ) -> Result<u64, Refusal>
        ensures { let asked = given_fit self.now matrix.old right.old out.old in Fitted asked (lengths_cause asked) matrix.new right.new out.new (said result) }
    {
        if !self.lengths_fit(matrix, right, out) {
            return Err(Refusal::WrongLength);
        }
        if self.cols <= 16 && self.side * self.size <= 64 {
            return self.fit_within::<16, 64, 320>(matrix, right, out);
        }
        self.fit_within::<256, 362, 5120>(matrix, right, out)
    }
}

// How many coordinates have their falling factorials in a table: with two variables or more those of the grid, and with one none, since none recurs.
fn tabled(variables: usize, grid_degree: u8) -> usize
    ensures { result ≡ cond (eqb variables 1) 0 (grid_degree + 1) }
{
    if variables == 1 {
        return 0;
    }
    grid_degree as usize + 1
}

// The fit, by its equations: apart from the call, so that what its answer means is shown once and not at each return.
fn weighted_fit(
    weights: &[u64],
    targets: &[u64],
    settings: &FitSettings,
    matrix: &mut [u64],
    right: &mut [u64],
    out: &mut [u64],
) -> Result<u64, Refusal>
    ensures { let s = settings.now in Called (fit_of s.total s.bitwidth s.support.now s.max_degree s.grid_degree weights.now targets.now
        matrix.old right.old out.old) matrix.new right.new out.new (said result) }
{
    let room = sizes::fit_room(settings)?;
    let answer = settings.answer();
    let degrees = answer.degrees();
    let grid = settings.grid().degrees();
    let given = Given {
        weights,
        targets,
        degrees: degrees.as_slice(),
        grid: grid.as_slice(),
        most: settings.max_degree,
        rows: room.rows as usize,
        cols: room.columns as usize,
        side: tabled(settings.support.len(), settings.grid_degree),
        size: answer.max_degree as usize + 1,
        bitwidth: settings.bitwidth,
    };
    given.fit_box(matrix, right, out)
}

// Fits a polynomial in falling factorials to weighted targets on the grid {0, .., grid_degree} over the support variables, modulo 2^bitwidth: exponents
// reach at most the smaller of max_degree and grid_degree, their sum at most max_degree. `weights` and `targets` have an entry for each grid point. On
// success `out`, a box of that smaller degree, has the coefficients, each below 2^(bitwidth - q), q being the twos in the factorials of its exponents, and
// the result is the largest total degree among those that are not 0. Its value times the weight is the target at every grid point. Refused for 10 where the
// elimination finds no answer, which does not say that there is none: `out` is then all zero. The scratch tables `matrix`, rows times columns, and `right`,
// rows, are zero after success and after 10. Other refusals, in the order 1, 2, 3, 5, 7, 8, 9, leave all tables as they were. `weights`, `targets` and
// `support` are not altered.
pub fn recover_weighted_poly(
    weights: &[u64],
    targets: &[u64],
    settings: &FitSettings,
    matrix: &mut [u64],
    right: &mut [u64],
    out: &mut [u64],
) -> Result<u64, Refusal>
    ensures calls { let s = settings.now in Called (fit_of s.total s.bitwidth s.support.now s.max_degree s.grid_degree weights.now targets.now
        matrix.old right.old out.old) matrix.new right.new out.new (said result) }
    ensures fits { let s = settings.now in Fits s.bitwidth (degrees_of (answer_of s)) (degrees_of (grid_of s)) s.max_degree
        weights.now targets.now (said result).number (said result).value out.new }
{
    weighted_fit(weights, targets, settings, matrix, right, out)
}
