// A lent list of records, each a valve and its word, walked once; the walk notes whether the valves rise, and how many records there are.
#![tactic(auto)]

ghost use Rattle.std.specs.Prelude.{◌≡◌};
ghost use Rattle.records.specs.Records.{unnoted, still_rises, noted, noted_all};

// A valve and its word.
#[repr(C)]
#[derive(Clone, Copy)]
pub struct Record {
    pub valve: u16,
    pub word: u64,
}

// What a walk over records has noted.
// Kept: `noted_all` is the promise and has the three; `least` and `count` go on where the valves do not rise.
#[derive(Clone, Copy)]
pub struct Notes {
    // Whether the valves rise strictly, each below 32768.
    pub rises: bool,
    // The least valve that may come next.
    pub least: u64,
    // How many records there are, 193 for more than 192.
    pub count: usize,
}

// Nothing noted yet.
fn start() -> Notes
    ensures { result ≡ unnoted }
{
    Notes {
        rises: true,
        least: 0,
        count: 0,
    }
}

// Whether the valves so far rise strictly below 32768, and still do with one more.
#[tactic(auto, unfolding(crate::specs::Records::still_rises))]
fn still_rises(rises: bool, least: u64, valve: u16) -> bool
    ensures { result ≡ still_rises rises least valve }
{
    rises && least <= valve as u64 && valve < 32768
}

// One record more.
fn note(n: Notes, r: Record) -> Notes
    ensures { result ≡ noted n r }
{
    let rises = still_rises(n.rises, n.least, r.valve);
    let least = r.valve as u64 + 1;
    let count = if 192 <= n.count { 193 } else { n.count + 1 };
    Notes {
        rises,
        least,
        count,
    }
}

// The records of a lent list, noted one by one, however many they are.
pub fn gather(list: &[Record]) -> Notes
    ensures { result ≡ noted_all unnoted list.now }
{
    let mut n = start();
    for r in list {
        n = note(n, *r);
    }
    n
}
