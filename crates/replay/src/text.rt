// The text of a replay: lines of decimal numbers, read byte by byte into a state by value.
ghost use Rattle.std.specs.Prelude.{◌≡◌};
ghost use Rattle.replay.specs.Lines.{empty_line, digit_read, number_closed};

// The numbers of a line so far, up to 128 and the others 0, and the one that is being read. A call finds its numbers at fixed places, on a short line too.
#[derive(Clone, Copy, Debug, PartialEq, Eq)]
pub(crate) struct Line {
    pub(crate) numbers: [u64; 128],
    pub(crate) count: usize,
    pub(crate) open_number: Option<u64>,
}

impl Line {
    // No number yet.
    pub(crate) fn empty() -> Self
        ensures { result ≡ empty_line }
    {
        Line {
            numbers: [0; 128],
            count: 0,
            open_number: None,
        }
    }

    // With a digit more, modulo 2^64.
    pub(crate) fn with_digit(self, byte: u8) -> Self
        ensures { result ≡ digit_read self byte }
    {
        let shifted = self.open_number.unwrap_or(0).wrapping_mul(10);
        let value = shifted.wrapping_add(u64::from(byte % 16));
        Line {
            open_number: Some(value),
            ..self
        }
    }

    // With the number that is being read put away; a number past the 128th is dropped.
    pub(crate) fn closed(mut self) -> Self
        ensures { result ≡ number_closed self }
    {
        if let Some(value) = self.open_number {
            if self.count < 128 {
                self.numbers[self.count] = value;
                self.count += 1;
            }
        }
        self.open_number = None;
        self
    }
}
