// The text of an answer, written to a lent buffer.
ghost use Rattle.std.specs.Prelude.{◌≡◌, ◌+◌, ◌*◌, ◌≤◌, length, replicate, [], ◌∷◌};
ghost use Rattle.meaning.specs.Boxes.{digits};
ghost use Rattle.bench_file.specs.Text.{number, numbers};
ghost use Rattle.bench_file.specs.Layout.{non_zeros, term_lines, accepted_text, refused_text};
ghost use Rattle.bench_file.specs.Printed.{printed, printed_size, term_text, Writes};

use crate::number;

// A box of one degree in each of its variables.
#[derive(Clone, Copy, Debug, PartialEq, Eq)]
pub struct Cube {
    pub degree: u8,
    pub variables: u8,
}

// A lent buffer and how many of its bytes are written: a sink of fixed memory, since there is no heap for a text that grows.
#[derive(Drop)]
struct Printer<'a> {
    out: &'a mut [u8],
    size: usize,
}

impl<'a> Printer<'a> {
    // Writes a number.
    fn number(&mut self, value: u64)
        requires { self.old.size + 21 ≤ length self.old.out.now }
        ensures { Writes self.old self.new (number value) }
    {
        let end = self.size + 21;
        number::write_number(&mut self.out[self.size..end], value);
        self.size = end;
    }

    // Ends a line.
    fn line_end(&mut self)
        requires { self.old.size + 1 ≤ length self.old.out.now }
        ensures { Writes self.old self.new (10 ∷ []) }
    {
        self.out[self.size] = b'\n';
        self.size += 1;
    }

    // Writes the exponents of a cell.
    fn exponents(&mut self, cube: Cube, cell: usize)
        requires { self.old.size + 21 * cube.variables ≤ length self.old.out.now }
        ensures { Writes self.old self.new (numbers (digits (replicate cube.variables cube.degree) cell)) }
    {
        let base = usize::from(cube.degree) + 1;
        let mut rest = cell;
        for _ in 0..cube.variables {
            self.number((rest % base) as u64);
            rest /= base;
        }
    }

    // Writes the line of a cell's coefficient, nothing where it is 0.
    fn term(&mut self, cube: Cube, cell: usize, coefficient: u64)
        requires { self.old.size + length (term_text (replicate cube.variables cube.degree) cell coefficient) ≤ length self.old.out.now }
        ensures { Writes self.old self.new (term_text (replicate cube.variables cube.degree) cell coefficient) }
    {
        if coefficient != 0 {
            self.exponents(cube, cell);
            self.number(coefficient);
            self.line_end();
        }
    }

    // Writes the lines of all coefficients.
    fn terms(&mut self, cube: Cube, coefficients: &[u64])
        requires { self.old.size + length (term_lines (replicate cube.variables cube.degree) 0 coefficients.now) ≤ length self.old.out.now }
        ensures { Writes self.old self.new (term_lines (replicate cube.variables cube.degree) 0 coefficients.now) }
    {
        for (cell, coefficient) in coefficients.iter().enumerate() {
            self.term(cube, cell, *coefficient);
        }
    }
}

// How many coefficients are not 0.
fn count_terms(coefficients: &[u64]) -> usize
    ensures { result ≡ non_zeros coefficients.now }
{
    coefficients.iter().filter(|c| **c != 0).count()
}

// Writes an accepted answer: 0 and the count of non-zero coefficients, then a line for each of them in cell order, its exponents and the coefficient.
// Gives how many bytes of the buffer the text takes: none where it has no room for the text, and then it stays as it was.
pub fn write_accepted(cube: Cube, coefficients: &[u64], out: &mut [u8]) -> Option<usize>
    ensures says { result ≡ printed_size (accepted_text (replicate cube.variables cube.degree) coefficients.now) out.old }
    ensures leaves { out.new ≡ printed (accepted_text (replicate cube.variables cube.degree) coefficients.now) out.old }
{
    let terms = count_terms(coefficients);
    if out.len() < 43 {
        return None;
    }
    let line = usize::from(cube.variables) * 21 + 22;
    if (out.len() - 43) / line < terms {
        return None;
    }
    let mut text = Printer { out, size: 0 };
    text.number(0);
    text.number(terms as u64);
    text.line_end();
    text.terms(cube, coefficients);
    Some(text.size)
}

// Writes a refusal: its number alone on a line. Gives how many bytes of the buffer the text takes: none where it has no room for the text, and then it
// stays as it was. The number and not the refusal, since the definition `refused_text` is of any number.
pub fn write_refused(code: u32, out: &mut [u8]) -> Option<usize>
    ensures says { result ≡ printed_size (refused_text code) out.old }
    ensures leaves { out.new ≡ printed (refused_text code) out.old }
{
    if out.len() < 22 {
        return None;
    }
    let mut text = Printer { out, size: 0 };
    text.number(u64::from(code));
    text.line_end();
    Some(text.size)
}
