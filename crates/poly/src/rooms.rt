// The value of a box at a point, with the room that the falling products of the point's coordinates need, in two sizes. Five parameters and no struct: with
// one, by reference, a value of four cells takes 2 percent more instructions, by value one of two variables of degree 31 takes 0.4 percent more.
ghost use Rattle.std.specs.Prelude.{◌≡◌, ◌*◌, ◌^◌, ◌<◌, ◌≤◌, true, length};
ghost use Rattle.meaning.specs.Settings.{fits_width};
ghost use Rattle.meaning.specs.Values.{value};
ghost use Rattle.poly.specs.Shapes.{Products, Asked};

use crate::cells;

// Fills the table, which has `size` places for each coordinate, with the falling products of the coordinates, one coordinate behind the other. No call is
// refused: the width fits. The parts are lent by place: of those that an iterator lends no proof knows what they end as.
fn point_products(table: &mut [u64], size: usize, point: &[u64], bitwidth: u32)
    requires { (fits_width bitwidth ≡ true) × (length table.old ≡ length point.now * size) }
    ensures { Products bitwidth (length point.now) size point.now table.new }
{
    let mut from = 0;
    for coordinate in point {
        let end = from + size;
        let _ = math_utils::falling::falling_products(*coordinate, bitwidth, &mut table[from..end]);
        from = end;
    }
}

// With the table `products`, a place for each falling product, which is used up.
fn value_with(
    coeffs: &[u64],
    degrees: &[u8],
    point: &[u64],
    size: usize,
    bitwidth: u32,
    products: &mut [u64],
) -> u64
    requires asked { Asked bitwidth size degrees.now coeffs.now point.now }
    requires products_len { length products.old ≡ length degrees.now * size }
    ensures { result ≡ value (2 ^ bitwidth) degrees.now coeffs.now point.now }
{
    point_products(products, size, point, bitwidth);
    cells::box_value(coeffs, degrees, products, size) & arith::bitmask(bitwidth)
}

// With room for so many falling products.
fn value_in<const ROOM: usize>(
    coeffs: &[u64],
    degrees: &[u8],
    point: &[u64],
    size: usize,
    bitwidth: u32,
) -> u64
    requires asked { Asked bitwidth size degrees.now coeffs.now point.now }
    requires enough { (length degrees.now * size ≤ ROOM) × (ROOM ≤ 512) }
    ensures { result ≡ value (2 ^ bitwidth) degrees.now coeffs.now point.now }
{
    let places = degrees.len() * size;
    // There is no heap: of this room the places that are needed are lent.
    let mut products = [0u64; ROOM];
    value_with(
        coeffs,
        degrees,
        point,
        size,
        bitwidth,
        &mut products[..places],
    )
}

// With room for 512, the most that a box needs. It is kept out of its caller, so that the small values do not have this room in their frame.
#[inline(never)]
fn value_large(coeffs: &[u64], degrees: &[u8], point: &[u64], size: usize, bitwidth: u32) -> u64
    requires { Asked bitwidth size degrees.now coeffs.now point.now }
    ensures { result ≡ value (2 ^ bitwidth) degrees.now coeffs.now point.now }
{
    value_in::<512>(coeffs, degrees, point, size, bitwidth)
}

// The value modulo 2^bitwidth of a coefficient box at a point. The degrees are below `size`.
pub(crate) fn value_at(
    coeffs: &[u64],
    degrees: &[u8],
    point: &[u64],
    size: usize,
    bitwidth: u32,
) -> u64
    requires { Asked bitwidth size degrees.now coeffs.now point.now }
    ensures { result ≡ value (2 ^ bitwidth) degrees.now coeffs.now point.now }
{
    if 32 < degrees.len() * size {
        return value_large(coeffs, degrees, point, size, bitwidth);
    }
    value_in::<32>(coeffs, degrees, point, size, bitwidth)
}
