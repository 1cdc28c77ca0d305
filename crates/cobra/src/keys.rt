// Keys of twenty exponents, which cross as twenty bytes: the calls of `mono`. A key table of another length is 9, after 11. The calls that write a lent table
// match where the others take `and_then`: a closure would take the table, and the proof of what is left in it did not close.
ghost use Rattle.std.specs.Prelude.{◌≡◌, cond, leb, ltb, length, set};
ghost use Rattle.meaning.specs.Leaves.{key_number, key_of, exponents_left, exponent_reply, degree_reply, largest_reply, weight_reply};
ghost use Rattle.meaning.specs.Replies.{told};
ghost use Rattle.answers.specs.Said.{said_number};
ghost use Rattle.cobra.specs.Keys.{twenty, keyed};
ghost use Rattle.mono.specs.Keys.{key_said, exponents_or};
ghost use Rattle.meaning.specs.Settings.{first};
ghost use Rattle.meaning.specs.Calls.{left};

use answers::Refusal;
use mono::MonomialKey;

// The key of a table of twenty bytes, where the number of variables or the variable is in its range: 11 where it is not, then 9 for another length.
// `in_range` is a bool: the calls test different ranges.
fn key_of(table: &[u8], in_range: bool) -> Result<MonomialKey, Refusal>
    ensures says { key_said result ≡ first (cond in_range 0 11) (twenty table.now) }
    ensures gives { exponents_or table.now result ≡ table.now }
{
    if !in_range {
        return Err(Refusal::OutOfRange);
    }
    match <[u8; 20]>::try_from(table) {
        Ok(exponents) => Ok(MonomialKey { exponents }),
        Err(_) => Err(Refusal::WrongLength),
    }
}

// Writes a key to a table of twenty bytes. Another length is 9, and the table stays as it was.
fn store(key: MonomialKey, table: &mut [u8]) -> Result<(), Refusal>
    ensures says { said_number result ≡ twenty table.old }
    ensures leaves { table.new ≡ left (twenty table.old) key.exponents table.old }
{
    if table.len() != MonomialKey::MAX_POLY_VARS {
        return Err(Refusal::WrongLength);
    }
    table.copy_from_slice(&key.exponents);
    Ok(())
}

// The key of the first num_vars exponents is written to `key`, which is left as it was beside a refusal.
#[unsafe(no_mangle)]
pub extern "C" fn cobra_key_from_exponents(exps: &[u8], num_vars: u8, key: &mut [u8]) -> u32
    ensures says { result ≡ first (key_number num_vars (length exps.now)) (twenty key.old) }
    ensures leaves { key.new ≡ left (first (key_number num_vars (length exps.now)) (twenty key.old)) (key_of num_vars exps.now) key.old }
{
    match MonomialKey::from_exponents(exps, num_vars) {
        Ok(made) => answers::outcome_code(store(made, key)),
        Err(refusal) => u32::from(refusal),
    }
}

// The first num_vars exponents are written to `out`, whose other entries stay; all of it stays beside a refusal.
#[unsafe(no_mangle)]
pub extern "C" fn cobra_key_to_exponents(key: &[u8], out: &mut [u8], num_vars: u8) -> u32
    ensures says { result ≡ first (key_number num_vars (length out.old)) (twenty key.now) }
    ensures leaves { out.new ≡ left (first (key_number num_vars (length out.old)) (twenty key.now)) (exponents_left num_vars key.now out.old) out.old }
{
    match key_of(key, num_vars <= 20 && num_vars as usize <= out.len()) {
        Ok(whole) => answers::outcome_code(whole.to_exponents(out, num_vars)),
        Err(refusal) => u32::from(refusal),
    }
}

// The exponent of a variable below 20.
#[unsafe(no_mangle)]
pub extern "C" fn cobra_key_exponent_at(key: &[u8], var_index: u8, value: &mut u64) -> u32
    ensures { told result value.new ≡ keyed (ltb var_index 20) key.now (exponent_reply var_index key.now) }
{
    let exponent = key_of(key, var_index < 20).and_then(|whole| whole.exponent_at(var_index).0);
    answers::deliver(exponent.map(u64::from), value)
}

// One exponent of the key is replaced; the key stays as it was beside a refusal. Not by `key_of`: out of a `Result` the key is copied in parts, which wait for
// the exponent that was just written (25 ns a call, and 8 so).
#[unsafe(no_mangle)]
pub extern "C" fn cobra_key_with_exponent(key: &mut [u8], var_index: u8, new_val: u8) -> u32
    ensures says { result ≡ first (cond (ltb var_index 20) 0 11) (twenty key.old) }
    ensures leaves { key.new ≡ left (first (cond (ltb var_index 20) 0 11) (twenty key.old)) (set key.old var_index new_val) key.old }
{
    if 20 <= var_index {
        return u32::from(Refusal::OutOfRange);
    }
    let Ok(exponents) = <[u8; 20]>::try_from(&*key) else {
        return u32::from(Refusal::WrongLength);
    };
    let (_, changed) = MonomialKey { exponents }.with_exponent(var_index, new_val);
    answers::outcome_code(store(changed, key))
}

// The sum of the first num_vars exponents.
#[unsafe(no_mangle)]
pub extern "C" fn cobra_key_total_degree(key: &[u8], num_vars: u8, value: &mut u64) -> u32
    ensures { told result value.new ≡ keyed (leb num_vars 20) key.now (degree_reply num_vars key.now) }
{
    let sum = key_of(key, num_vars <= 20).and_then(|whole| whole.total_degree(num_vars));
    answers::deliver(sum, value)
}

// The largest of the first num_vars exponents.
#[unsafe(no_mangle)]
pub extern "C" fn cobra_key_max_degree(key: &[u8], num_vars: u8, value: &mut u64) -> u32
    ensures { told result value.new ≡ keyed (leb num_vars 20) key.now (largest_reply num_vars key.now) }
{
    let largest = key_of(key, num_vars <= 20).and_then(|whole| whole.max_degree(num_vars));
    answers::deliver(largest, value)
}

// The twos in the factorials of the first num_vars exponents.
#[unsafe(no_mangle)]
pub extern "C" fn cobra_key_v2_factorial_weight(key: &[u8], num_vars: u8, value: &mut u64) -> u32
    ensures { told result value.new ≡ keyed (leb num_vars 20) key.now (weight_reply num_vars key.now) }
{
    let twos = key_of(key, num_vars <= 20).and_then(|whole| whole.v2_factorial_weight(num_vars));
    answers::deliver(twos, value)
}
