// What no record by value can hold: the test of the words of one-bit fields, event numbers and the level. The words of one kind
// are united bit by bit, so that there is one test for all of them and no branch for a word.
ghost use Rattle.std.specs.Prelude.{◌≡◌};
ghost use Rattle.fields.specs.Largest.{is_flag};
ghost use Rattle.store.specs.Store.{within};
ghost use Rattle.words.specs.Untyped.{united, words_at, numbers, untyped};

// Words united bit by bit with a number.
#[inline]
fn united(acc: u64, words: &[u64]) -> u64
    ensures { result ≡ united acc words.now }
{
    words.iter().fold(acc, |acc, word| acc | word)
}

// The one-bit fields, run by run: between the runs are fields of more bits.
#[inline]
fn flags(m: &[u64; 143]) -> u64
    ensures { result ≡ united 0 (words_at (numbers is_flag 0x00 0x8E) m.now) }
{
    let to_0b = united(0, &m[0x00..0x0C]);
    let to_12 = united(to_0b, &m[0x10..0x13]);
    let to_26 = united(to_12, &m[0x20..0x27]);
    let to_31 = united(to_26, &m[0x28..0x32]);
    let to_36 = united(to_31 | m[0x33], &m[0x35..0x37]);
    let to_3e = united(to_36, &m[0x38..0x3F]);
    let to_87 = united(to_3e, &m[0x80..0x88]);
    united(to_87, &m[0x89..0x8B])
}

// The event numbers.
#[inline]
fn events(m: &[u64; 143]) -> u64
    ensures { result ≡ united 0 (words_at (numbers (within 0x40 0x5E) 0x40 31) m.now) }
{
    united(0, &m[0x40..0x5F])
}

// Some word is above what its field's type has in a record by value.
pub fn untyped(m: &[u64; 143]) -> bool
    ensures { result ≡ untyped m.now }
{
    (1 < flags(m)) | (0xFFFF < events(m)) | (0xFF < m[0x8E])
}
