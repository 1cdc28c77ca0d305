// The columns of the fit: the exponent lists with no exponent above its variable's degree and a bounded sum, by total degree, ties in lexicographic
// order.
ghost use Rattle.std.specs.Prelude.{◌≡◌, ◌+◌, ◌*◌, ◌≤◌, length};
ghost use Rattle.meaning.specs.Elimination.{joined};
ghost use Rattle.meaning.specs.Fit.{columns};
ghost use Rattle.weighted_poly_fit.specs.Listing.{listing, exponents_before, Listed};

// Makes `part` the list. A loop, and no `copy_from_slice`, for the reason said at `tables::copy`.
fn write_list(part: &mut [u8], list: &[u8])
    requires { length part.old ≡ length list.now }
    ensures { part.new ≡ list.now }
{
    for (i, exponent) in part.iter_mut().enumerate() {
        *exponent = list[i];
    }
}

// Writes the exponent lists with the sum `left` in the variables that remain, those of `degrees`, each behind the exponents that `current` has for the
// variables before, from place `at` of the table on. The result is the place behind the last. `current` keeps the exponents of the variables before;
// the others are used up. It takes table and place, and not the part of the table that is left: the place behind the last list is what a caller goes on from.
fn enumerate_basis_recurse(
    table: &mut [u8],
    at: usize,
    current: &mut [u8],
    degrees: &[u8],
    left: usize,
) -> usize
    requires degrees_in_bounds { length degrees.now ≤ length current.old }
    requires left_in_bounds { at + length (listing (exponents_before current.old degrees.now) degrees.now left) ≤ length table.old }
    ensures { Listed table.old at current.old degrees.now left table.new current.new result }
{
    if degrees.len() == 0 {
        if left != 0 {
            return at;
        }
        let end = at + current.len();
        write_list(&mut table[at..end], current);
        return end;
    }
    let place = current.len() - degrees.len();
    let highest = (degrees[0] as usize).min(left);
    let mut next = at;
    for e in 0..=highest {
        current[place] = e as u8;
        next = enumerate_basis_recurse(table, next, current, &degrees[1..], left - e);
    }
    next
}

// Fills the table with the columns, one behind the other: for each total degree up to `most` the exponent lists of that sum. `current` has a place for
// each variable, and is used up.
pub(crate) fn enumerate_basis(table: &mut [u8], current: &mut [u8], degrees: &[u8], most: u8)
    requires current_len { length current.old ≡ length degrees.now }
    requires table_len { length table.old ≡ length (columns degrees.now most) * length degrees.now }
    ensures { table.new ≡ joined (columns degrees.now most) }
{
    let last = most as usize;
    let mut next = 0;
    for degree in 0..=last {
        next = enumerate_basis_recurse(table, next, current, degrees, degree);
    }
}
