// Calls of the journal as a list of numbers, played one by one on a lent medium and write buffer: support for the two programs that run the papers' examples,
// whose output is compared with a file. It is no part of the library, and promises little: see `Played`.
#![tactic(auto)]

ghost use Rattle.std.specs.Prelude.{◌≡◌, ◌<◌, ◌≤◌, length};
ghost use Rattle.page.specs.Buffer.{buffer_bytes};
ghost use Rattle.trials.specs.Played.{Played};

use player::{RecordedCall, Reply, Told};
use state::State;

// Kept: a trial is one list of numbers, the codes `FORMAT` to `FLUSH` among their arguments: an array of cases with arrays in them is no plainer.
// Codes of calls. The last digit of a code is the call, as in a trace. Here formatting begins.
pub const FORMAT: u64 = trace::FORMAT;

// APPEND, n, n keys, n words: an append begins, of 97 entries at most.
pub const APPEND: u64 = trace::APPEND;

// A commit begins.
pub const COMMIT: u64 = trace::COMMIT;

// COLLECT, block: a collection begins.
pub const COLLECT: u64 = trace::COLLECT;

// One step of the pending operation, unless the call before it was refused.
pub const STEP: u64 = trace::STEP;

// CUT, page or 256 + block: the step due is cut, with a pattern of no 1 bits.
pub const CUT: u64 = trace::CUT;

// Recovery: its state takes the place of the last.
pub const RECOVER: u64 = trace::RECOVER;

// BUFFER, n, n keys, n words: a group is put into the write buffer, of 97 entries at most.
pub const BUFFER: u64 = trace::BUFFER;

// A flush begins.
pub const FLUSH: u64 = trace::FLUSH;

// A code that is 10 more is the call with its steps until the operation is over, 20 at most, for media of 16 blocks at most: their formatting takes 17. Here formatting.
pub const FORMATTED: u64 = 11;

// An append.
pub const APPENDED: u64 = 12;

// A commit.
pub const COMMITTED: u64 = 13;

// A collection.
pub const COLLECTED: u64 = 14;

// A flush.
pub const FLUSHED: u64 = 19;

// BYTE, at, value: a byte of the medium changes.
pub const BYTE: u64 = 20;

// PUT, page, kind, serial, n, word: a page is programmed that begins and ends a group, of n entries, 0 or 1, that set valve 5.
pub const PUT: u64 = 30;

// A code that is 40 more has n and `low` in place of keys and words: n valves from `low` on, set to 0. Here an append begins.
pub const VALVES: u64 = 42;

// They are put into the write buffer.
pub const BUFFER_VALVES: u64 = 48;

// An append of them, with its steps.
pub const SET: u64 = 52;

// How the last call of a list went: the number that refused it, or 0; the steps it tried; and the state, unless a cut lost it.
// Kept: `Played` is the promise and speaks of the number.
#[derive(Clone, Copy)]
pub struct Trial {
    pub number: u8,
    pub steps: usize,
    pub state: Option<State>,
}

// The number at place i of a list, 0 past its end.
fn at(calls: &[u64], i: usize) -> u64 {
    calls.get(i).copied().unwrap_or(0)
}

// How many numbers a call has after its code, of which n is the first.
// Kept: codes of a list of numbers, some asked by ranges: a match would be guards.
fn numbers(code: u64, n: u64) -> usize
    ensures { result ≤ 195 }
{
    if code == BYTE || 40 <= code {
        return 2;
    }
    let call = code % 10;
    if call == APPEND || call == BUFFER {
        return 1 + 2 * ((n % 98) as usize);
    }
    if call == COLLECT || call == CUT {
        return 1;
    }
    if code == PUT {
        return 5;
    }
    0
}

// Where the call at place i ends; a list that is cut short ends it.
fn end(calls: &[u64], i: usize) -> usize
    requires { i < length calls.now }
    ensures { (i < result) × (result ≤ length calls.now) }
{
    let n = numbers(calls[i], at(calls, i + 1));
    if n < calls.len() - i {
        return i + 1 + n;
    }
    calls.len()
}

// Key i of a group.
fn key(call: &[u64], i: usize) -> u16
    requires { i < 97 }
{
    if 40 <= at(call, 0) {
        return ((at(call, 2) % 32768) as u16) + (i as u16);
    }
    (at(call, 2 + i) % 65536) as u16
}

// The keys of a group.
fn keys(call: &[u64]) -> [u16; 97]
    ensures { length result ≡ 97 }
{
    let mut all = [0u16; 97];
    for i in 0..97 {
        all[i] = key(call, i);
    }
    all
}

// The words of a group of n entries; those that the call lacks are 0.
fn words(call: &[u64], n: usize) -> [u64; 97]
    requires { n ≤ 97 }
    ensures { length result ≡ 97 }
{
    let mut all = [0u64; 97];
    for i in 0..97 {
        all[i] = at(call, 2 + n + i);
    }
    all
}

// How a call went, and after how many steps.
fn told(r: Reply, steps: usize) -> Trial {
    let number = match r.told {
        Told::Refused(number) => number,
        _ => 0,
    };
    Trial {
        number,
        steps,
        state: r.last,
    }
}

// A call played.
fn played(m: &mut [u8], b: &mut [u8], t: Trial, c: RecordedCall, steps: usize) -> Trial
    requires { (length m.old ≤ 65536) × (length b.old ≡ buffer_bytes) }
{
    told(player::perform(m, b, t.state, c), steps)
}

// A call with a number, and with a group of n entries.
fn called(m: &mut [u8], b: &mut [u8], t: Trial, call: &[u64], n: usize) -> Trial
    requires { (length m.old ≤ 65536) × (length b.old ≡ buffer_bytes) × (n ≤ 97) }
{
    let all_keys = keys(call);
    let all_words = words(call, n);
    let keys = &all_keys[..n];
    let words = &all_words[..n];
    let code = at(call, 0) % 10;
    let r = player::call(m, b, t.state, code, at(call, 1), keys, words, &[]);
    told(r, 0)
}

// A cut of what is named.
fn cut(m: &mut [u8], b: &mut [u8], t: Trial, name: u64) -> Trial
    requires { (length m.old ≤ 65536) × (length b.old ≡ buffer_bytes) }
{
    let all = [0u8; 4096];
    let pattern = &all[..trace::pattern_size(name)];
    played(m, b, t, RecordedCall::Cut { name, pattern }, 0)
}

// Nothing but the state that the calls so far left.
fn rest(t: Trial) -> Trial {
    Trial {
        number: t.number,
        steps: 0,
        state: t.state,
    }
}

// A call before any step; one without the journal leaves all as it was.
// Kept: as `numbers`.
fn begun(m: &mut [u8], b: &mut [u8], t: Trial, call: &[u64]) -> Trial
    requires { (length m.old ≤ 65536) × (length b.old ≡ buffer_bytes) }
{
    let code = at(call, 0) % 10;
    if code == 0 || code == STEP {
        return rest(t);
    }
    if code == CUT {
        return cut(m, b, t, at(call, 1));
    }
    called(m, b, t, call, (at(call, 1) % 98) as usize)
}

// How many steps a call stands for.
fn steps(call: &[u64]) -> usize
    ensures { result ≤ 20 }
{
    let code = at(call, 0);
    if code == STEP {
        return 1;
    }
    if code / 10 == 1 || code == SET {
        return 20;
    }
    0
}

// A step after n others; none where one was refused, or where they ended the operation.
fn go_on(m: &mut [u8], b: &mut [u8], t: Trial, n: usize) -> Trial
    requires { (length m.old ≤ 65536) × (length b.old ≡ buffer_bytes) × (n < 20) }
{
    if t.number != 0 {
        return t;
    }
    if 0 < n && is_idle(t.state) {
        return t;
    }
    played(m, b, t, RecordedCall::Step, n + 1)
}

// Whether a state has no operation pending.
fn is_idle(last: Option<State>) -> bool {
    let Some(s) = last else {
        return false;
    };
    s.operation == state::IDLE
}

// At most so many steps.
fn finish(m: &mut [u8], b: &mut [u8], t: Trial, most: usize) -> Trial
    requires { (length m.old ≤ 65536) × (length b.old ≡ buffer_bytes) × (most ≤ 20) }
{
    let mut u = t;
    for n in 0..most {
        u = go_on(m, b, u, n);
    }
    u
}

// The page of a PUT.
fn page(call: &[u64]) -> [u8; 256] {
    let words = [at(call, 5); 1];
    build::part_bytes(
        (at(call, 2) % 256) as u8,
        3,
        at(call, 3),
        &[5u16; 1],
        &words,
        0,
        (at(call, 4) % 2) as usize,
    )
}

// What a call does to the medium without the journal.
// Kept: as `numbers`.
fn damage(m: &mut [u8], call: &[u64]) {
    let code = at(call, 0);
    let i = at(call, 1) as usize;
    if code == BYTE && i < m.len() {
        m[i] = (at(call, 2) % 256) as u8;
    }
    if code == PUT && i < m.len() / 256 {
        flash::program(m, i, page(call));
    }
}

// A call with its steps.
fn made(m: &mut [u8], b: &mut [u8], t: Trial, call: &[u64]) -> Trial
    requires { (length m.old ≤ 65536) × (length b.old ≡ buffer_bytes) }
{
    damage(m, call);
    let u = begun(m, b, t, call);
    finish(m, b, u, steps(call))
}

// What there is before any call: no state, and the answer that a format of no bytes has.
fn nothing() -> Trial
    ensures { result.number ≡ 1 }
{
    Trial {
        number: 1,
        steps: 0,
        state: None,
    }
}

// Each call of a list in turn, also after a refusal, with a write buffer. Before the first FORMAT or RECOVER there is no state. On a medium of more
// than 65536 bytes no call is played, nor with a buffer that is no page.
pub fn play_with(m: &mut [u8], b: &mut [u8], calls: &[u64]) -> Trial
    ensures { Played m.old calls.now result m.new }
{
    let mut t = nothing();
    if player::BYTES < m.len() || b.len() != 256 {
        return t;
    }
    let mut i: usize = 0;
    // Kept: each call is as long as its first numbers say, so that no count is known before.
    while i < calls.len() {
        let e = end(calls, i);
        t = made(m, b, t, &calls[i..e]);
        i = e;
    }
    t
}

// The same with a write buffer of its own, empty at first.
pub fn play(m: &mut [u8], calls: &[u64]) -> Trial
    ensures { Played m.old calls.now result m.new }
{
    let mut b = [255u8; 256];
    play_with(m, &mut b, calls)
}

// The calls that format a medium and append 48 groups of one page to it.
pub fn groups() -> [u64; 145]
    ensures { length result ≡ 145 }
{
    let group = [SET, 1, 5];
    let mut all = [FORMATTED; 145];
    for i in 1..145 {
        all[i] = group[(i - 1) % 3];
    }
    all
}
