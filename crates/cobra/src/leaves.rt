// Twos, odd parts, inverses, falling products and Stirling tables: the calls of `math_utils`.
ghost use Rattle.std.specs.Prelude.{◌≡◌, length};
ghost use Rattle.meaning.specs.Factorials.{factorial, twos};
ghost use Rattle.meaning.specs.Leaves.{cap_reply, odd_part_reply, inverse_reply, stirling_number, stirling_left, stirling1_table, stirling2_table};
ghost use Rattle.meaning.specs.Leaves.{falling_told, falling_reply, products_reply, products_left};
ghost use Rattle.meaning.specs.Replies.{told};
ghost use Rattle.math_utils.specs.Precision.{precision, bits_of};
ghost use Rattle.math_utils.specs.Falling.{Stops};

#[unsafe(no_mangle)]
pub extern "C" fn cobra_twos_in_factorial(k: u32) -> u32
    ensures { result ≡ twos (factorial k) }
{
    math_utils::twos_in_factorial(k)
}

// The bits that count, 0 where there are none.
#[unsafe(no_mangle)]
pub extern "C" fn cobra_precision_bits(weight: u32, width: u32) -> u32
    ensures { result ≡ bits_of (precision weight width) }
{
    math_utils::precision_bits(weight, width).unwrap_or(0)
}

#[unsafe(no_mangle)]
pub extern "C" fn cobra_degree_cap(width: u32, value: &mut u64) -> u32
    ensures { told result value.new ≡ cap_reply width }
{
    answers::deliver(math_utils::degree_cap(width), value)
}

#[unsafe(no_mangle)]
pub extern "C" fn cobra_odd_part_factorial(k: u32, width: u32, value: &mut u64) -> u32
    ensures { told result value.new ≡ odd_part_reply k width }
{
    answers::deliver(math_utils::odd_part_factorial(k, width), value)
}

#[unsafe(no_mangle)]
pub extern "C" fn cobra_mod_inverse_odd(x: u64, bits: u32, value: &mut u64) -> u32
    ensures { told result value.new ≡ inverse_reply x bits }
{
    answers::deliver(math_utils::mod_inverse_odd(x, bits), value)
}

// The product and the number of its factors that were taken; both are 0 beside a refusal.
#[unsafe(no_mangle)]
pub extern "C" fn cobra_falling_product(
    x: u64,
    n: u64,
    width: u32,
    value: &mut u64,
    factors: &mut u64,
) -> u32
    ensures says { falling_told result value.new factors.new ≡ falling_reply width x n }
    ensures stops { Stops width x n (falling_told result value.new factors.new) }
{
    let answer = math_utils::falling::falling_product(x, n, width);
    let product = answer.unwrap_or_default();
    *value = product.value;
    *factors = product.factors;
    answers::outcome_code(answer.map(|_| ()))
}

// The table gets the products of 0, 1, 2, .. factors, or is left as it was beside a refusal.
#[unsafe(no_mangle)]
pub extern "C" fn cobra_falling_products(
    x: u64,
    width: u32,
    table: &mut [u64],
    factors: &mut u64,
) -> u32
    ensures says { told result factors.new ≡ products_reply width x (length table.old) }
    ensures leaves { table.new ≡ products_left width x table.old }
{
    answers::deliver(
        math_utils::falling::falling_products(x, width, table),
        factors,
    )
}

// The table of (degree + 1)^2 entries is filled, or left as it was beside a refusal.
#[unsafe(no_mangle)]
pub extern "C" fn cobra_stirling_second_kind(degree: u8, width: u32, table: &mut [u64]) -> u32
    ensures says { result ≡ stirling_number degree width (length table.old) }
    ensures leaves { table.new ≡ stirling_left degree width (stirling2_table degree width) table.old }
{
    answers::outcome_code(math_utils::stirling::build_stirling_second_kind(degree, width, table))
}

#[unsafe(no_mangle)]
pub extern "C" fn cobra_stirling_first_kind(degree: u8, width: u32, table: &mut [u64]) -> u32
    ensures says { result ≡ stirling_number degree width (length table.old) }
    ensures leaves { table.new ≡ stirling_left degree width (stirling1_table degree width) table.old }
{
    answers::outcome_code(math_utils::stirling::build_stirling_first_kind(degree, width, table))
}
