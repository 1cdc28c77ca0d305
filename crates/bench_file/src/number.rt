// Numbers in 21 columns, printed and read.
ghost use Rattle.std.specs.Prelude.{◌≡◌, cond, eqb, length};
ghost use Rattle.bench_file.specs.Text.{shown, number};
ghost use Rattle.bench_file.specs.Columns.{Reads, with_last_digit, with_column_of};

// The number with one digit more: none where the byte is no digit or the number would not be below 2^64.
pub(crate) fn with_digit(value: u64, byte: u8) -> Option<u64>
    ensures { result ≡ with_last_digit value byte }
{
    if !byte.is_ascii_digit() {
        return None;
    }
    value.checked_mul(10)?.checked_add(u64::from(byte - b'0'))
}

// One of the first 20 columns after columns that show `value`: a blank where there was no digit yet, or a digit, which is no leading zero.
pub(crate) fn with_column(value: u64, byte: u8) -> Option<u64>
    ensures { result ≡ with_column_of value byte }
{
    if byte == b' ' {
        return (value == 0).then_some(0);
    }
    with_digit(value, byte).filter(|found| *found != 0)
}

// Reads the 21 columns of a number below 2^64: none where the bytes are not exactly the text of such a number.
pub fn read_number(bytes: &[u8]) -> Option<u64>
    ensures { Reads bytes.now result }
{
    if bytes.len() != 21 {
        return None;
    }
    let mut value = 0;
    for byte in &bytes[..20] {
        value = with_column(value, *byte)?;
    }
    with_digit(value, bytes[20])
}

// The byte that shows the last digit of what is left of a number, a blank where nothing is.
fn shown_digit(rest: u64) -> u8
    ensures { result ≡ shown rest }
{
    if rest == 0 {
        return b' ';
    }
    b'0' + (rest % 10) as u8
}

// Writes the 21 columns of a number. A part of another length stays as it was. Digit by digit: no clause of the library says what `{:>21}` prints, nor what is
// written through `iter_mut().rev()`.
pub fn write_number(out: &mut [u8], value: u64)
    ensures { out.new ≡ cond (eqb (length out.old) 21) (number value) out.old }
{
    if out.len() != 21 {
        return;
    }
    out[20] = b'0' + (value % 10) as u8;
    let mut rest = value / 10;
    for i in (0..20).rev() {
        out[i] = shown_digit(rest);
        rest /= 10;
    }
}
