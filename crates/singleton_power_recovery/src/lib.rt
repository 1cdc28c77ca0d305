// Singleton powers: for each variable alone, the others held at 0, the coefficients of its falling factorials without the constant. Each variable's
// values are recovered as a box of one variable, and the constant is then set to 0. Values, width and output are three parameters of each function: the tables
// are cut line by line, so that a struct of them would be made anew for each line.
#![tactic(auto)]

ghost use Rattle.std.specs.Prelude.{◌≡◌, true, ℕ, ◌*◌, ◌≤◌, ◌<◌, length};
ghost use Rattle.meaning.specs.Settings.{fits_width};
ghost use Rattle.meaning.specs.Singletons.{singleton_number, singleton_left};
ghost use Rattle.singleton_power_recovery.specs.VariableLines.{Single, Singles};
ghost use Rattle.answers.specs.Said.{said_number};

use answers::Refusal;
use settings::Settings;

// One variable: its coefficients, with 0 in place of the constant, or the refusal of a difference that does not pass.
fn recover_line(values: &[u64], bitwidth: u32, out: &mut [u64]) -> Result<(), Refusal>
    requires { (fits_width bitwidth ≡ true) × (2 ≤ length values.now) × (length values.now ≤ 256) × (length out.old ≡ length values.now) }
    ensures { Single bitwidth values.now out.new (said_number result) }
{
    let settings = Settings {
        support: &[0],
        total: 1,
        bitwidth,
        max_degree: (values.len() - 1) as u8,
    };
    multivar_poly_recovery::recover_multivar_poly(values, &settings, out)?;
    out[0] = 0;
    Ok(())
}

// Variable after variable, `size` cells each, up to the first that has a difference that does not pass.
// The parts of `out` are cut by their places: no clause says what chunks that are lent to be written leave in a table.
fn recover_lines(values: &[u64], size: usize, bitwidth: u32, out: &mut [u64]) -> Result<(), Refusal>
    requires { (fits_width bitwidth ≡ true) × (2 ≤ size) × (size ≤ 256) × (length out.old ≡ length values.now) }
    ensures { (n : ℕ) → length values.now ≡ n * size → Singles bitwidth size n values.now out.new (said_number result) }
{
    for (i, line) in values.chunks_exact(size).enumerate() {
        let from = i * size;
        recover_line(line, bitwidth, &mut out[from..from + size])?;
    }
    Ok(())
}

// Recovers, for each of `num_vars` variables with the others held at 0, the coefficients of its falling factorials of degrees 1 to degree_cap(bitwidth) - 1,
// modulo 2^bitwidth. `values` has degree_cap(bitwidth) values for each variable, at 0, 1, 2 and so on, variable after variable; `out` gets as many numbers,
// laid out alike: 0 in place of the constant, then the coefficients, each below 2^(bitwidth - q), q being the twos in the factorial of its degree. No
// variables is allowed, with both tables empty. Refused for 2 (more than 20 variables), 3 and 9, in this order, when `out` is as it was, and then for 6,
// when `out` is all zero. `values` is not altered.
pub fn recover_singleton_powers(
    values: &[u64],
    num_vars: u32,
    bitwidth: u32,
    out: &mut [u64],
) -> Result<(), Refusal>
    ensures says { said_number result ≡ singleton_number num_vars bitwidth values.now out.old }
    ensures leaves { out.new ≡ singleton_left num_vars bitwidth values.now out.old }
{
    if 20 < num_vars {
        return Err(Refusal::TooManyVariables);
    }
    // its one refusal is another here: a closure for `map_err`, which would look at nothing, is no plainer
    let Ok(cap) = math_utils::degree_cap(bitwidth) else {
        return Err(Refusal::WidthOutOfRange);
    };
    let size = cap as usize;
    let count = num_vars as usize * size;
    if values.len() != count || out.len() != count {
        return Err(Refusal::WrongLength);
    }
    let outcome = recover_lines(values, size, bitwidth, out);
    if outcome.is_err() {
        tables::clear(out);
    }
    outcome
}
