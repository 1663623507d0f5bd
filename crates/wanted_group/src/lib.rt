// The group that leads from settings to wanted ones: wanted records are compared with the present settings one by one.
#![tactic(auto)]

ghost use Rattle.std.specs.Prelude.{◌≡◌, true, ◌&&◌, ◌++◌, ◌≤◌, leb, length};
ghost use Rattle.lists.specs.Lists.{all};
ghost use Rattle.lists.specs.Cells.{cell, listed, pairs};
ghost use Rattle.index.specs.Search.{Kept};
ghost use Rattle.index.specs.Lent.{held_at, Lent};
ghost use Rattle.wanted_group.specs.Group.{is_valve};
ghost use Rattle.wanted_group.specs.Limited.{limited, limited_by, cells_in};
ghost use Rattle.wanted_group.specs.Compare.{not_compared, compared_with, unnamed, group_of, so_far, Comparing, ComesTo, PlaceIn};

use lists::Cells;

// What wanted records, compared with the present settings one by one, have come to so far.
// Kept: `SoFar` is the promise and has the flags; there is no heap, so the lists stand with a count.
#[derive(Clone, Copy)]
pub struct Compared {
    // For each place of the present settings 0 until a record has named the valve there. The place past them is for valves that are not set.
    pub named: [u8; 193],
    // Where the valve of the next record is looked for first: past the last that was found.
    pub next: usize,
    // Whether no record so far sets valve 0 anew.
    pub allowed: bool,
    // Whether more than 96 records so far do not stand so.
    pub more: bool,
    // How many do not stand so, at most 96, and the first 96 of them.
    pub count: usize,
    pub keys: [u16; 96],
    pub vals: [u64; 96],
}

// Nothing compared yet.
pub fn not_compared() -> Compared
    ensures { ComesTo not_compared result }
{
    Compared {
        named: [0u8; 193],
        next: 0,
        allowed: true,
        more: false,
        count: 0,
        keys: [0u16; 96],
        vals: [0u64; 96],
    }
}

// Whether a valve stands at a place below n.
fn is_at(keys: &[u16], n: usize, at: usize, valve: u16) -> bool
    requires { n ≤ length keys.now }
    ensures { result ≡ held_at valve at n keys.now }
{
    at < n && keys[at] == valve
}

// The same of a word.
// Kept: a twin of `is_at`, since the clause of both speaks of a number, which an element of a generic type is not.
fn has_word(vals: &[u64], n: usize, at: usize, word: u64) -> bool
    requires { n ≤ length vals.now }
    ensures { result ≡ held_at word at n vals.now }
{
    at < n && vals[at] == word
}

// The place of a valve among the first n keys, n where it stands at none. A likely place is looked at first.
fn place_of<'a>(keys: &'a [u16], vals: &'a [u64], n: usize, likely: usize, valve: u16) -> usize
    requires { Lent n keys.now vals.now }
    ensures { PlaceIn valve n keys.now result }
{
    if is_at(keys, n, likely, valve) {
        return likely;
    }
    let at = arrays::rank16(keys, n, valve);
    if is_at(keys, n, at, valve) {
        return at;
    }
    n
}

// Whether valve 0 is still not set anew, with one setting more.
fn still_allowed(allowed: bool, valve: u16) -> bool
    ensures { result ≡ (allowed && leb 1 valve) }
{
    allowed && 1 <= valve
}

// One wanted record, a valve and its word, compared with the present settings: its valve is named, and where it does not stand so, it is
// one setting more.
pub fn compare(present: Cells, c: Compared, valve: u16, word: u64) -> Compared
    requires { Lent present.count present.keys present.vals × Comparing c }
    ensures { ComesTo (compared_with (listed present) (so_far c) (cell valve word)) result }
{
    let n = present.count;
    let at = place_of(&present.keys, &present.vals, n, c.next, valve);
    let mut q = c;
    q.named[at] = 1;
    q.next = at + 1;
    if has_word(&present.vals, n, at, word) {
        return q;
    }
    q.allowed = still_allowed(c.allowed, valve);
    let k = c.count;
    if 96 <= k {
        q.more = true;
        return q;
    }
    q.count = k + 1;
    q.keys[k] = valve;
    q.vals[k] = word;
    q
}

// The removals: of each present valve that no record has named.
fn removals(present: Cells, c: Compared) -> Cells
    requires { (present.count ≤ 192) × (all is_valve (listed present) ≡ true) }
    ensures { Kept result.count (listed result) (unnamed c.named (listed present)) }
{
    let mut keys = [0u16; 192];
    let mut vals = [0u64; 192];
    let mut count = 0;
    for i in 0..present.count {
        if c.named[i] != 0 {
            continue;
        }
        keys[count] = present.keys[i] + 32768;
        vals[count] = 0;
        count += 1;
    }
    Cells { count, keys, vals }
}

// The removals, and after them the settings that do not stand so; none where these are more than 96.
fn appended(a: Cells, c: Compared) -> Option<Cells>
    requires { (a.count ≤ 192) × (c.count ≤ 96) }
    ensures { Kept (cells_in result) (limited_by result) (limited (listed a ++ pairs c.count c.keys c.vals)) }
{
    let count = c.count;
    if 96 < a.count + count {
        return None;
    }
    let mut keys = a.keys;
    let mut vals = a.vals;
    let mut n = a.count;
    for i in 0..count {
        keys[n] = c.keys[i];
        vals[n] = c.vals[i];
        n += 1;
    }
    Some(Cells {
        count: n,
        keys,
        vals,
    })
}

// The fewest entries that make the wanted settings of the present ones, removals first, when every wanted record has been compared;
// none where these are more than 96.
pub fn group(present: Cells, c: Compared) -> Option<Cells>
    requires { (present.count ≤ 192) × (all is_valve (listed present) ≡ true) × Comparing c }
    ensures { Kept (cells_in result) (limited_by result) (group_of (listed present) (so_far c)) }
{
    if c.more {
        return None;
    }
    let a = removals(present, c);
    appended(a, c)
}
