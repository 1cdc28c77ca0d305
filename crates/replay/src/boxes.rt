// The conversions, the normal form, recovery and singleton powers. A case is `OP WIDTH DEGREE K CELLS` and CELLS numbers, with OP 1 to_factorial_basis,
// 2 to_monomial_basis, 3 normalize_polynomial, 4 recover_multivar_poly, 5 recover_singleton_powers (DEGREE 0, K variables); the support is the first K
// variables. The number of the answer and the table that is left are printed. Each OP is another call, and has an arm of its own.
use crate::calls::BoxCall;
use crate::print;
use answers::Refusal;
use settings::Settings;
use std::io;
use std::io::Write;

// The call on its tables.
fn call(call: BoxCall, given: &[u64], settings: &Settings, out: &mut [u64]) -> Result<(), Refusal> {
    match call {
        BoxCall::ToFactorialBasis => basis_transform::to_factorial_basis(given, settings, out),
        BoxCall::ToMonomialBasis => basis_transform::to_monomial_basis(given, settings, out),
        BoxCall::NormalizePolynomial => {
            poly_normalizer::normalize_polynomial(given, settings, out)
        }
        BoxCall::RecoverMultivarPoly => {
            multivar_poly_recovery::recover_multivar_poly(given, settings, out)
        }
        BoxCall::RecoverSingletonPowers => singleton_power_recovery::recover_singleton_powers(
            given,
            settings.total,
            settings.bitwidth,
            out,
        ),
    }
}

// A whole line: five numbers, then the cells. Nothing is printed of a case that is longer than a line, or has more than 20 variables.
pub(crate) fn replay<W: Write>(
    sink: &mut W,
    kind: BoxCall,
    numbers: &[u64; 128],
) -> io::Result<()> {
    let k = (numbers[3] % 64) as usize;
    let size = (numbers[4] % 256) as usize;
    let Some(given) = numbers.get(5..5 + size) else {
        return Ok(());
    };
    let Some(support) = crate::VARIABLES.get(..k) else {
        return Ok(());
    };
    let settings = Settings {
        support,
        total: k as u32,
        bitwidth: print::low32(numbers[1]),
        max_degree: print::low8(numbers[2]),
    };
    let mut room = [0; 128];
    let out = &mut room[..size];
    let outcome = call(kind, given, &settings, out);
    print::outcome(sink, outcome)?;
    print::table(sink, out)?;
    print::line_end(sink)
}
