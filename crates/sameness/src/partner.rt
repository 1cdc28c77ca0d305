// What a variable of one form has in another: its degree and its stride there.
ghost use Rattle.std.specs.Prelude.{◌≡◌, ◌≤◌};
ghost use Rattle.sameness.specs.Places.{far, way_of};

// Both are 0 where the other form has not the variable.
#[derive(Clone, Copy, Debug, PartialEq, Eq)]
pub(crate) struct Partner {
    pub(crate) limit: u8,
    pub(crate) step: u64,
    pub(crate) ghost short: { step ≤ 65536 },
}

// 2^40: past the end of every table of coefficients, and twenty such ways together are below 2^64.
const FAR: u64 = 0x0100_0000_0000;

impl Partner {
    // How far the exponent e leads: one above the limit far past the end of every table of coefficients, where every coefficient is 0.
    pub(crate) fn way(&self, e: usize) -> u64
        requires { e ≤ 65536 }
        ensures leads { result ≡ way_of self.now.limit self.now.step e }
        ensures low { result ≤ far }
    {
        if e <= self.limit as usize {
            return e as u64 * self.step;
        }
        FAR
    }
}
