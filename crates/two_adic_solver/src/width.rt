// Numbers modulo 2^w: reduced, their twos, and a multiple of one subtracted from another, one by one and along a row. Number, multiplier and the other number
// are parameters by themselves: they come from three places, and in a row two of them are new in each turn.
ghost use Rattle.std.specs.Prelude.{◌≡◌, ◌-◌, ◌*◌, ◌%◌, ◌^◌, ◌≤◌, min, length};
ghost use Rattle.meaning.specs.Tables.{tabulate, at};
ghost use Rattle.meaning.specs.Factorials.{twos_of};
ghost use Rattle.meaning.specs.Differences.{minus};

// A width of 64 bits at most.
#[derive(Clone, Copy, Debug, PartialEq, Eq)]
pub(crate) struct Width {
    pub(crate) bits: u32,
    ghost fits: { bits ≤ 64 },
}

impl Width {
    // The twos of a number, cut at the width.
    pub(crate) fn twos(self, number: u64) -> u32
        ensures { result ≡ twos_of self.bits number }
    {
        number.trailing_zeros().min(self.bits)
    }

    // Every number of a table modulo 2^w.
    pub(crate) fn reduce(self, table: &mut [u64])
        ensures { table.new ≡ tabulate (length table.old) (λ n. at table.old n % 2 ^ self.bits) }
    {
        tables::cut(table, self.bits);
    }

    // The number less q times the other, modulo 2^w, for the mask of the width. To 32 bits the low halves of both factors are enough. The mask is a parameter
    // here and in `less_multiple`: where a row's loop made it in each turn, the solver took up to 2 percent more instructions.
    fn less_masked(self, number: u64, q: u64, other: u64, mask: u64) -> u64
        requires { mask ≡ 2 ^ min self.bits 64 - 1 }
        ensures { result ≡ minus (2 ^ self.bits) number (q * other) }
    {
        if self.bits <= 32 {
            let low = q % 0x1_0000_0000 * (other % 0x1_0000_0000);
            return arith::wrapping_sub(number, low) & mask;
        }
        arith::wrapping_sub(number, arith::wrapping_mul(q, other)) & mask
    }

    // The same, without the mask at 64 bits. A loop over a row has the same width in every turn: the compiler makes it a loop for each case.
    fn less_multiple(self, number: u64, q: u64, other: u64, mask: u64) -> u64
        requires { mask ≡ 2 ^ min self.bits 64 - 1 }
        ensures { result ≡ minus (2 ^ self.bits) number (q * other) }
    {
        if self.bits == 64 {
            return arith::wrapping_sub(number, arith::wrapping_mul(q, other));
        }
        self.less_masked(number, q, other, mask)
    }

    // The number less q times the other, modulo 2^w.
    pub(crate) fn less(self, number: u64, q: u64, other: u64) -> u64
        ensures { result ≡ minus (2 ^ self.bits) number (q * other) }
    {
        self.less_multiple(number, q, other, arith::bitmask(self.bits))
    }

    // A row's part less q times the pivot row's, modulo 2^w.
    pub(crate) fn subtract_row(self, row: &mut [u64], pivot: &[u64], q: u64)
        requires { length row.old ≤ length pivot.now }
        ensures { row.new ≡ tabulate (length row.old) (λ k. minus (2 ^ self.bits) (at row.old k) (q * at pivot.now k)) }
    {
        let mask = arith::bitmask(self.bits);
        // by place, which the invariant speaks of: a zip with the pivot row names none
        for (k, number) in row.iter_mut().enumerate() {
            *number = self.less_multiple(*number, q, pivot[k], mask);
        }
    }
}
