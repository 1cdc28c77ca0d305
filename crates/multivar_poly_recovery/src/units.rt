// The inverses modulo 2^64 of the odd parts of factorials: the first sixteen, and those of the cells of a row.
ghost use Rattle.std.specs.Prelude.{◌≡◌, ℕ, ◌-◌, ◌*◌, ◌%◌, ◌^◌, ◌<◌, List, [], ◌∷◌, ◌++◌, length, get_or, nat_lt};
ghost use Rattle.std.specs.List.{list_all};
ghost use Rattle.meaning.specs.Tables.{tabulate, at};
ghost use Rattle.meaning.specs.Factorials.{factorial, odd_part};
ghost use Rattle.meaning.specs.Inverses.{inverse};
ghost use Rattle.multivar_poly_recovery.specs.Extracted.{Inverses};
ghost use Rattle.multivar_poly_recovery.specs.Products.{times, times_zeroth, times_more};

use box_rows::layout::CellNumbers;

// The inverses of the odd parts of 0!, 1! and so on.
#[derive(Clone, Copy, Debug, PartialEq, Eq)]
pub(crate) struct OddInverses<'a> {
    pub(crate) table: &'a [u64],
    pub(crate) ghost serve: { Inverses table.now },
}

// The number of a cell is the product of the inverses of its exponents; an exponent past the end of the table counts as 0.
impl CellNumbers for OddInverses<'_> {
    ghost number = { λ x. times x.table.now 1 };

    ghost part = { λ x e. get_or x.table.now e 1 };

    ghost next = { λ x first before v. (first * v) % 2 ^ 64 };

    fn start(&self) -> u64 {
        1
    }

    fn part(&self, e: usize) -> u64 {
        self.table.get(e).copied().unwrap_or(1)
    }

    fn next(&self, first: u64, before: u64, own: u64) -> u64 {
        arith::wrapping_mul(first, own)
    }

    ghost zeroth = { λ x. times_zeroth x.table.now x.serve };

    ghost more = { λ x es e some small. times_more x.table.now 1 es e };
}

// Apart from the table of 256, which a small box would copy.
const FIRST_INVERSES: [u64; 16] = [
    0x0000000000000001,
    0x0000000000000001,
    0x0000000000000001,
    0xaaaaaaaaaaaaaaab,
    0xaaaaaaaaaaaaaaab,
    0xeeeeeeeeeeeeeeef,
    0x4fa4fa4fa4fa4fa5,
    0x2ff2ff2ff2ff2ff3,
    0x2ff2ff2ff2ff2ff3,
    0x938cc70553e3771b,
    0xb71c27cddd93e49f,
    0xb38e3229fcdee63d,
    0xe684bb63544a4cbf,
    0xc2f684917ca340fb,
    0xf747c9cba417526d,
    0xbb26eb51d7bd49c3,
];

// The inverses of the odd parts of 0! to 15!.
pub(crate) fn first_inverses() -> [u64; 16]
    ensures { result ≡ tabulate 16 (λ k. inverse (odd_part (factorial k)) 64) }
{
    FIRST_INVERSES
}

// Whether no degree is above 15.
pub(crate) fn below_16(degrees: &[u8]) -> bool
    ensures { result ≡ list_all (λ d. nat_lt d 16) degrees.now }
{
    degrees.iter().all(|d| *d < 16)
}
