// Tables as bytes, eight to an entry, least first: decoded, encoded and tested.
ghost use Rattle.std.specs.Prelude.{◌≡◌, ◌*◌, leb, length};
ghost use Rattle.meaning.specs.Settings.{some};
ghost use Rattle.settings.specs.Causes.{stand_in_of};
ghost use Rattle.byte_calls.specs.Bytes.{decoded, encoded};
ghost use Rattle.byte_calls.specs.Calls.{holds};

// The most entries of a table.
pub(crate) const MOST: usize = settings::BYTE_LIMIT as usize;

// Whether the bytes are those of `count` entries, for any count.
pub(crate) fn holds(bytes: &[u8], count: u64) -> bool
    ensures { result ≡ holds bytes.now count }
{
    bytes.len() % 8 == 0 && (bytes.len() / 8) as u64 == count
}

// Fills `words` with the entries that `bytes` hold. It is kept out of its callers: there the compiler clears the end of a large room twice, which takes a box of
// 256 cells a seventh longer. The chunks are read by the index: a loop over a zip runs by its iterator, and its proof speaks of what that has yielded.
#[inline(never)]
pub(crate) fn decode(bytes: &[u8], words: &mut [u64])
    requires { length bytes.now ≡ length words.old * 8 }
    ensures { words.new ≡ decoded bytes.now }
{
    let (entries, _) = bytes.as_chunks::<8>();
    for (i, word) in words.iter_mut().enumerate() {
        *word = u64::from_le_bytes(entries[i]);
    }
}

// Fills `bytes` with the entries of `words`. The parts are cut by their places: no clause says what chunks that are lent to be written leave in a table.
pub(crate) fn encode(words: &[u64], bytes: &mut [u8])
    requires { length bytes.old ≡ length words.now * 8 }
    ensures { bytes.new ≡ encoded words.now }
{
    for (i, word) in words.iter().enumerate() {
        let from = i * 8;
        bytes[from..from + 8].copy_from_slice(&word.to_le_bytes());
    }
}

// Whether some index is not below the total. `settings` has the test on numbers; here the bytes are read in place, and one function for both would need a
// trait.
fn index_past(support: &[u8], total: u32) -> bool
    ensures { result ≡ some (leb total) (decoded support.now) }
{
    let limit = total as u64;
    let (entries, _) = support.as_chunks::<8>();
    entries
        .iter()
        .any(|entry| limit <= u64::from_le_bytes(*entry))
}

// An index that is past the total where one of the support is.
pub(crate) fn stand_in(support: &[u8], total: u32) -> u64
    ensures { result ≡ stand_in_of total (decoded support.now) }
{
    if index_past(support, total) {
        return total as u64;
    }
    0
}
