// The causes of refusal before the size of the box.
ghost use Rattle.std.specs.Prelude.{◌≡◌, false, ◌&&◌, ◌≤◌, leb, eqb};
ghost use Rattle.meaning.specs.Settings.{some, repeated};
ghost use Rattle.answers.specs.Said.{said_number};
ghost use Rattle.settings.specs.Causes.{support_number};

use answers::Refusal;

// Whether some index is not below the number of variables.
fn index_past(support: &[u64], total: u32) -> bool
    ensures { result ≡ some (leb total) support.now }
{
    let limit = total as u64;
    support.iter().any(|index| limit <= *index)
}

// Whether some index stands twice, of indices below the number of variables. It ends at the first that was seen before. There is no heap: the marks are an
// array, with a place for each index that there may be.
fn index_twice(support: &[u64], total: u32) -> bool
    requires { (total ≤ 20) × (some (leb total) support.now ≡ false) }
    ensures { result ≡ repeated support.now }
{
    let mut seen = [false; 20];
    for index in support {
        let place = *index as usize;
        if seen[place] {
            return true;
        }
        seen[place] = true;
    }
    false
}

// The first cause among 1, 2, 3, 4, 5 and 7. `zero` says that a degree is 0 where none may be.
pub(crate) fn check_support(
    support: &[u64],
    total: u32,
    fits: bool,
    zero: bool,
) -> Result<(), Refusal>
    ensures { said_number result ≡ support_number total fits zero support.now }
{
    if support.len() == 0 {
        return Err(Refusal::EmptySupport);
    }
    if 20 < total {
        return Err(Refusal::TooManyVariables);
    }
    if !fits {
        return Err(Refusal::WidthOutOfRange);
    }
    if zero {
        return Err(Refusal::DegreeZero);
    }
    if index_past(support, total) {
        return Err(Refusal::SupportIndex);
    }
    if index_twice(support, total) {
        return Err(Refusal::RepeatedIndex);
    }
    Ok(())
}
