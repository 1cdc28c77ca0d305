// The conversion of a box into another table, at a width.
ghost use Rattle.std.specs.Prelude.{◌≡◌, ◌^◌, ◌≤◌, length};
ghost use Rattle.meaning.specs.Boxes.{cells};
ghost use Rattle.lines.specs.Transforms.{box_of};

use lines::LineTransform;

// Converts the coefficients of the box of `degrees`, modulo 2^bitwidth, by the given transform. `out` gets the converted coefficients, each below
// 2^bitwidth. The width is at most 64, and both tables have a number for each cell, first variable fastest.
pub(crate) fn convert_box<T: LineTransform>(
    transform: T,
    bitwidth: u32,
    degrees: &[u8],
    coefficients: &[u64],
    out: &mut [u64],
)
    requires { (bitwidth ≤ 64) × (length coefficients.now ≡ cells degrees.now) × (length out.old ≡ cells degrees.now) }
    ensures { out.new ≡ box_of (T.line transform) (2 ^ bitwidth) degrees.now coefficients.now }
{
    tables::copy(coefficients, out);
    lines::transform_all(transform, out, degrees);
    if bitwidth < 64 {
        tables::cut(out, bitwidth);
    }
}
