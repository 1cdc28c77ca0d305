// Exponent lists of up to twenty variables, as a key that is passed and returned by value.
#![tactic(auto)]

ghost use Rattle.std.specs.Prelude.{◌≡◌, ◌≤◌, ◌<◌, cond, ltb, length, take, IfOk, IfErr};
ghost use Rattle.meaning.specs.Tables.{tabulate};
ghost use Rattle.meaning.specs.Leaves.{key_number, key_reply, exponents_left, exponent_reply, exponent_set, degree_reply, largest_reply, weight_reply};
ghost use Rattle.answers.specs.Said.{said, said_number};
ghost use Rattle.answers.specs.declared.Refusal.TheVariants.{OutOfRange};
ghost use Rattle.mono.specs.Keys.{key_said, exponents_or};

use answers::Refusal;

// Twenty exponents; those past the variables in use are zero.
#[derive(Clone, Copy, Debug, PartialEq, Eq, Hash)]
pub struct MonomialKey {
    pub exponents: [u8; 20],
}

impl MonomialKey {
    // The number of exponents in a key.
    pub const MAX_POLY_VARS: usize = 20;

    // The key of the constant: every exponent 0.
    pub fn zero() -> Self
        ensures { result.exponents ≡ tabulate 20 (λ i. 0) }
    {
        Self { exponents: [0; 20] }
    }

    // The key of the first num_vars entries of a list, the rest zero. 11 where num_vars is above 20 or above the list's length.
    pub fn from_exponents(exps: &[u8], num_vars: u8) -> Result<Self, Refusal>
        ensures says { key_said result ≡ key_number num_vars (length exps.now) }
        ensures gives { exponents_or (tabulate 20 (λ i. 0)) result ≡ key_reply num_vars exps.now }
    {
        let count = usize::from(num_vars);
        if Self::MAX_POLY_VARS < count || exps.len() < count {
            return Err(Refusal::OutOfRange);
        }
        let mut exponents = [0; 20];
        // Written entry by entry, a whole key of twenty: after a copy of the first part the reader of the key waits for it (17 ns a call; written so, 12).
        for (i, exponent) in exponents.iter_mut().enumerate() {
            if i < count {
                *exponent = exps[i];
            }
        }
        Ok(Self { exponents })
    }

    // The first num_vars exponents. 11 where num_vars is above 20.
    fn first(&self, num_vars: u8) -> Result<&[u8], Refusal>
        ensures first { IfOk result (λ s. (num_vars ≤ 20) × (s.now ≡ take num_vars self.now.exponents)) }
        ensures refused { IfErr result (λ r. (20 < num_vars) × (r ≡ OutOfRange)) }
    {
        let count = usize::from(num_vars);
        if Self::MAX_POLY_VARS < count {
            return Err(Refusal::OutOfRange);
        }
        Ok(&self.exponents[..count])
    }

    // Writes the first num_vars exponents into a list and leaves its other entries. 11 and the list as it was where num_vars is above 20 or above the
    // list's length.
    pub fn to_exponents(self, out: &mut [u8], num_vars: u8) -> Result<(), Refusal>
        ensures says { said_number result ≡ key_number num_vars (length out.old) }
        ensures leaves { out.new ≡ exponents_left num_vars self.exponents out.old }
    {
        let first = self.first(num_vars)?;
        if out.len() < first.len() {
            return Err(Refusal::OutOfRange);
        }
        out[..first.len()].copy_from_slice(first);
        Ok(())
    }

    // The exponent of a variable, or 11 from variable 20 on. The key is given back, as document 01 asks.
    pub fn exponent_at(self, var_index: u8) -> (Result<u8, Refusal>, Self)
        ensures says { said result.0 ≡ exponent_reply var_index self.exponents }
        ensures keeps { result.1.exponents ≡ self.exponents }
    {
        let at = usize::from(var_index);
        if Self::MAX_POLY_VARS <= at {
            return (Err(Refusal::OutOfRange), self);
        }
        (Ok(self.exponents[at]), self)
    }

    // The key with the exponent of one variable replaced. 11 and the key as it was from variable 20 on. The key is given back beside a refusal too, as document 01
    // asks.
    pub fn with_exponent(mut self, var_index: u8, new_val: u8) -> (Result<(), Refusal>, Self)
        ensures says { said_number result.0 ≡ cond (ltb var_index 20) 0 11 }
        ensures gives { result.1.exponents ≡ exponent_set var_index new_val self.exponents }
    {
        let place = usize::from(var_index);
        if Self::MAX_POLY_VARS <= place {
            return (Err(Refusal::OutOfRange), self);
        }
        self.exponents[place] = new_val;
        (Ok(()), self)
    }

    // The sum of the first num_vars exponents. 11 where num_vars is above 20.
    pub fn total_degree(self, num_vars: u8) -> Result<u64, Refusal>
        ensures { said result ≡ degree_reply num_vars self.exponents }
    {
        let first = self.first(num_vars)?;
        Ok(first.iter().map(|exponent| u64::from(*exponent)).sum())
    }

    // The largest of the first num_vars exponents, 0 if there is none. 11 where num_vars is above 20.
    pub fn max_degree(self, num_vars: u8) -> Result<u64, Refusal>
        ensures { said result ≡ largest_reply num_vars self.exponents }
    {
        let first = self.first(num_vars)?;
        let largest = first.iter().fold(0, |most, exponent| most.max(*exponent));
        Ok(u64::from(largest))
    }

    // The twos in the factorials of the first num_vars exponents. 11 where num_vars is above 20.
    pub fn v2_factorial_weight(self, num_vars: u8) -> Result<u64, Refusal>
        ensures { said result ≡ weight_reply num_vars self.exponents }
    {
        let first = self.first(num_vars)?;
        let twos = first.iter().map(|exponent| math_utils::twos_in_factorial(u32::from(*exponent)));
        Ok(u64::from(twos.sum::<u32>()))
    }
}
