// What is printed of an answer.
use answers::Refusal;
use std::io;
use std::io::Write;

// The low 32 bits, and the low 8. Two functions: one for both would need a trait for what a type cuts off, and be no plainer.
pub(crate) fn low32(x: u64) -> u32 {
    (x % 0x1_0000_0000) as u32
}

pub(crate) fn low8(x: u64) -> u8 {
    (x % 256) as u8
}

// The number of an outcome.
pub(crate) fn outcome<W: Write>(sink: &mut W, outcome: Result<(), Refusal>) -> io::Result<()> {
    write!(sink, "{}", answers::outcome_code(outcome))
}

// The number and the value of an answer.
pub(crate) fn answer<W: Write>(sink: &mut W, answer: Result<u64, Refusal>) -> io::Result<()> {
    outcome(sink, answer.map(|_| ()))?;
    write!(sink, " {}", answer.unwrap_or(0))
}

// The numbers of a table, a blank before each.
pub(crate) fn table<W: Write>(sink: &mut W, table: &[u64]) -> io::Result<()> {
    for entry in table {
        write!(sink, " {entry}")?;
    }
    Ok(())
}

pub(crate) fn line_end<W: Write>(sink: &mut W) -> io::Result<()> {
    writeln!(sink)
}
