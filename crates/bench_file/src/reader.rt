// The reader of a bench file: a state by value that is fed the input piece by piece. It keeps the numbers of the first two lines, and puts the values
// into a lent table as they come. An input of any length is read: a line is never kept, and values past the table's end are only counted.
ghost use Rattle.std.specs.Prelude.{◌≡◌, ◌<◌, cond, ltb};
ghost use Rattle.answers.specs.declared.Refusal.{Refusal};
ghost use Rattle.bench_file.specs.Columns.{with_last_digit, with_column_of};
ghost use Rattle.bench_file.specs.Steps.{none_read, staged, opened, with_head, head_column_of, first_byte_of, second_byte_of, with_value_of, value_byte_of};
ghost use Rattle.bench_file.specs.Steps.{state, line_end, step, fed, reading_of};

use crate::number;
use answers::Refusal;
use std::error::Error;
use std::fmt;

// Where the reading stands.
#[derive(Clone, Copy, Debug, PartialEq, Eq)]
pub enum Stage {
    // In the first line: width, total variables, degree, support count.
    FirstLine,
    // In the second line: the support.
    SecondLine,
    // At the beginning of a value's line, or inside its number.
    Value,
    // After a value's number.
    LineEnd,
    // The first two lines are ill-formed.
    IllHead,
    // They are well-formed, and what follows is not.
    IllValues,
}

// What of an input is ill-formed.
#[derive(Clone, Copy, Debug, PartialEq, Eq)]
pub enum IllFormed {
    // The first two lines.
    Head,
    // What follows them, which are well-formed.
    Values,
}

impl fmt::Display for IllFormed {
    fn fmt<W: fmt::Write>(&self, f: &mut fmt::Formatter<W>) -> fmt::Result {
        f.write_str(match self {
            IllFormed::Head => "the first two lines are ill-formed",
            IllFormed::Values => "what follows the first two lines is ill-formed",
        })
    }
}

impl Error for IllFormed {}

impl From<IllFormed> for Refusal {
    ghost from_gives = { λ _ refusal. refusal ≡ Refusal.IllFormed };

    fn from(_ill: IllFormed) -> Refusal {
        Refusal::IllFormed
    }
}

// What is known of the bytes so far. No heap: the numbers of the first two lines lie in an array with their count, and the values in a lent table.
#[derive(Clone, Copy, Debug, PartialEq, Eq)]
pub struct Reader {
    pub stage: Stage,
    // Columns of the open number so far, and what they show. At the end of a value's line this is the value.
    pub column: usize,
    pub shown: u64,
    // Numbers of the first two lines so far: the four of the first, then the support.
    pub got: usize,
    pub head: [u64; 24],
    // Values so far; one more than the table is long where they are more than that.
    pub count: usize,
}

impl Reader {
    // Nothing is read yet.
    pub fn new() -> Self
        ensures { result ≡ none_read }
    {
        Self {
            stage: Stage::FirstLine,
            column: 0,
            shown: 0,
            got: 0,
            head: [0; 24],
            count: 0,
        }
    }

    // The same at another stage.
    fn at_stage(self, stage: Stage) -> Self
        ensures { result ≡ staged stage self }
    {
        Self { stage, ..self }
    }

    // One column more of an open number.
    fn open_number(self, shown: u64) -> Self
        requires { self.column < 20 }
        ensures { result ≡ opened self shown }
    {
        Self {
            column: self.column + 1,
            shown,
            ..self
        }
    }

    // With one number more of the first two lines, of which there are 24 at most.
    fn with_head(mut self, found: u64) -> Self
        ensures { result ≡ with_head self found }
    {
        if self.got < self.head.len() {
            self.head[self.got] = found;
            return Self {
                column: 0,
                shown: 0,
                got: self.got + 1,
                ..self
            };
        }
        self.at_stage(Stage::IllHead)
    }

    // What the columns of the open number show after a byte more, the 21st of which ends it: none where no number has them.
    fn shown_after(self, byte: u8) -> Option<u64>
        ensures { result ≡ cond (ltb self.column 20) (with_column_of self.shown byte) (with_last_digit self.shown byte) }
    {
        if self.column < 20 {
            number::with_column(self.shown, byte)
        } else {
            number::with_digit(self.shown, byte)
        }
    }

    // A byte inside a number of the first two lines.
    fn head_column(self, byte: u8) -> Self
        ensures { result ≡ head_column_of self byte }
    {
        match self.shown_after(byte) {
            Some(shown) if self.column < 20 => self.open_number(shown),
            Some(found) => self.with_head(found),
            None => self.at_stage(Stage::IllHead),
        }
    }

    // A byte of the first line.
    fn first_byte(self, byte: u8) -> Self
        ensures { result ≡ first_byte_of self byte }
    {
        if byte != b'\n' {
            return self.head_column(byte);
        }
        let whole = self.column == 0 && self.got == 4;
        self.at_stage(if whole {
            Stage::SecondLine
        } else {
            Stage::IllHead
        })
    }

    // A byte of the second line.
    fn second_byte(self, byte: u8) -> Self
        ensures { result ≡ second_byte_of self byte }
    {
        if byte != b'\n' {
            return self.head_column(byte);
        }
        let [_, _, degree, wanted, ..] = self.head;
        let whole = self.column == 0
            && degree <= 255
            && wanted <= 20
            && self.got as u64 == wanted + 4;
        self.at_stage(if whole { Stage::Value } else { Stage::IllHead })
    }

    // The last column of a value is read.
    fn with_value(self, found: u64) -> Self
        ensures { result ≡ with_value_of self found }
    {
        Self {
            stage: Stage::LineEnd,
            column: 0,
            shown: found,
            ..self
        }
    }

    // A byte of a value. Beside `head_column`, which differs in where the last column leads: a parameter for that would be no plainer.
    fn value_byte(self, byte: u8) -> Self
        ensures { result ≡ value_byte_of self byte }
    {
        match self.shown_after(byte) {
            Some(shown) if self.column < 20 => self.open_number(shown),
            Some(found) => self.with_value(found),
            None => self.at_stage(Stage::IllValues),
        }
    }

    // The byte after a value, which is put into the table where there is room.
    fn line_end_byte(self, byte: u8, values: &mut [u64]) -> Self
        ensures { state result values.new ≡ line_end (state self values.old) byte }
    {
        if byte != b'\n' {
            return self.at_stage(Stage::IllValues);
        }
        let mut count = values.len() + 1;
        if self.count < values.len() {
            values[self.count] = self.shown;
            count = self.count + 1;
        }
        Self {
            stage: Stage::Value,
            column: 0,
            shown: 0,
            count,
            ..self
        }
    }

    // One byte.
    fn read_byte(self, byte: u8, values: &mut [u64]) -> Self
        ensures { state result values.new ≡ step (state self values.old) byte }
    {
        match self.stage {
            Stage::FirstLine => self.first_byte(byte),
            Stage::SecondLine => self.second_byte(byte),
            Stage::Value => self.value_byte(byte),
            Stage::LineEnd => self.line_end_byte(byte, values),
            Stage::IllHead | Stage::IllValues => self,
        }
    }

    // The reader after one more piece of the input, of any length. The values that the piece ends go into `values` at their places.
    pub fn feed(mut self, piece: &[u8], values: &mut [u64]) -> Self
        ensures { state result values.new ≡ fed (state self values.old) piece.now }
    {
        for byte in piece {
            self = self.read_byte(*byte, values);
        }
        self
    }

    // What the input was, after all of it was fed.
    pub fn reading(self) -> Result<(), IllFormed>
        ensures { result ≡ reading_of self }
    {
        match self.stage {
            Stage::FirstLine | Stage::SecondLine | Stage::IllHead => Err(IllFormed::Head),
            Stage::LineEnd | Stage::IllValues => Err(IllFormed::Values),
            Stage::Value => {
                if self.column == 0 {
                    Ok(())
                } else {
                    Err(IllFormed::Values)
                }
            }
        }
    }
}
