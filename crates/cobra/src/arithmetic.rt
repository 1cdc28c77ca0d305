// Arithmetic modulo 2^width: the calls of `arith`.
ghost use Rattle.std.specs.Prelude.{◌≡◌, ◌+◌, ◌*◌, ◌-◌, ◌%◌, ◌^◌, min};
ghost use Rattle.meaning.specs.Differences.{minus};

#[unsafe(no_mangle)]
pub extern "C" fn cobra_wrapping_mul(a: u64, b: u64) -> u64
    ensures { result ≡ (a * b) % 2 ^ 64 }
{
    arith::wrapping_mul(a, b)
}

#[unsafe(no_mangle)]
pub extern "C" fn cobra_bitmask(width: u32) -> u64
    ensures { result ≡ 2 ^ min width 64 - 1 }
{
    arith::bitmask(width)
}

#[unsafe(no_mangle)]
pub extern "C" fn cobra_mod_add(a: u64, b: u64, width: u32) -> u64
    ensures { result ≡ (a + b) % 2 ^ min width 64 }
{
    arith::mod_add(a, b, width)
}

#[unsafe(no_mangle)]
pub extern "C" fn cobra_mod_sub(a: u64, b: u64, width: u32) -> u64
    ensures { result ≡ minus (2 ^ min width 64) a b }
{
    arith::mod_sub(a, b, width)
}

#[unsafe(no_mangle)]
pub extern "C" fn cobra_mod_mul(a: u64, b: u64, width: u32) -> u64
    ensures { result ≡ (a * b) % 2 ^ min width 64 }
{
    arith::mod_mul(a, b, width)
}

#[unsafe(no_mangle)]
pub extern "C" fn cobra_mod_neg(a: u64, width: u32) -> u64
    ensures { result ≡ minus (2 ^ min width 64) 0 a }
{
    arith::mod_neg(a, width)
}
