// The undo list: what takes back the latest commands, up to 64 of them, in words that the caller lends. Word 0 says how many
// are listed, word 1 at which of the 64 places the next will stand, and from word 2 on each place has three words. Any words are
// a list: the first two are read so that no place lies outside.
#![tactic(auto)]

ghost use Rattle.std.specs.Prelude.{◌≢◌, ◌≡◌, [], ◌∷◌, ℕ, ◌+◌, ◌/◌, ◌%◌, ◌^◌, ◌<◌, min, get_or, take};
ghost use Rattle.undo_words.specs.Journal.{entries, entry_at, backwards, latest, rest, capacity};

use undo::{Change, Undo};

// What takes a command back, and a number of the caller's that goes with it.
#[derive(Clone, Copy)]
pub struct Entry {
    pub undo: Undo,
    pub tag: u32,
}

// How many entries are listed.
fn used(list: &[u64; 194]) -> u64
    ensures { result ≡ min (get_or list.now 0 0) capacity }
{
    list[0].min(64)
}

// The place of the next entry.
fn next(list: &[u64; 194]) -> usize
    ensures { result ≡ get_or list.now 1 0 % 64 }
{
    (list[1] % 64) as usize
}

// Field, level and tag in one word.
fn packed(field: u8, level: u8, tag: u32) -> u64
    ensures { (result % 2 ^ 8 ≡ field) × (result / 2 ^ 8 % 2 ^ 8 ≡ level) × (result / 2 ^ 16 % 2 ^ 32 ≡ tag) }
{
    field as u64 + 0x100 * (level as u64) + 0x10000 * (tag as u64)
}

// The entry at a place.
fn entry_at(list: &[u64; 194], at: usize) -> Entry
    requires { at < 64 }
    ensures { result ≡ entry_at list.now at }
{
    let first = list[3 * at + 2];
    let change = Change {
        field: (first % 0x100) as u8,
        old: list[3 * at + 3],
    };
    let undo = Undo {
        change,
        level: (first / 0x100 % 0x100) as u8,
        ovs: list[3 * at + 4],
    };
    Entry {
        undo,
        tag: (first / 0x10000 % 0x100000000) as u32,
    }
}

// An entry put at a place: the others stay.
fn put(list: &mut [u64; 194], at: usize, e: Entry)
    requires { at < 64 }
    ensures { (entry_at list.new at ≡ e)
        × ((j : ℕ) → j ≢ at → entry_at list.new j ≡ entry_at list.old j) }
{
    list[3 * at + 2] = packed(e.undo.change.field, e.undo.level, e.tag);
    list[3 * at + 3] = e.undo.change.old;
    list[3 * at + 4] = e.undo.ovs;
}

// The first two words: so many entries are listed, and the next will stand at this place.
#[tactic(auto, using(crate::proofs::Words::marked))]
fn mark(list: &mut [u64; 194], n: u64, at: usize)
    ensures { entries list.new ≡ backwards (min n capacity) (at % 64) (entry_at list.old) }
{
    list[0] = n;
    list[1] = at as u64;
}

// MODEL H1, H3: one entry more, the latest; of more than 64 the oldest drops off.
pub fn remember(list: &mut [u64; 194], e: Entry)
    ensures { entries list.new ≡ take capacity (e ∷ entries list.old) }
{
    let n = (used(list) + 1).min(64);
    let at = next(list);
    put(list, at, e);
    mark(list, n, (at + 1) % 64);
}

// MODEL H1: the latest entry, which leaves the list.
pub fn recall(list: &mut [u64; 194]) -> Option<Entry>
    ensures { (result ≡ latest (entries list.old))
        × (entries list.new ≡ rest (entries list.old)) }
{
    let left = used(list).checked_sub(1)?;
    let at = (next(list) + 63) % 64;
    let e = entry_at(list, at);
    mark(list, left, at);
    Some(e)
}

// MODEL H5: no entry is left.
#[tactic(auto, unfolding(crate::specs::Journal::backwards))]
pub fn empty(list: &mut [u64; 194])
    ensures { entries list.new ≡ [] }
{
    mark(list, 0, 0);
}
