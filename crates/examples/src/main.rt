// Runs the papers' test pages and test media on the proved functions and prints what they give.
#![tactic(auto)]

ghost use Rattle.std.specs.Prelude.{◌≡◌, ◌≤◌, length};

use print::{line, text};
use state::State;
use trials::{
    APPEND, APPENDED, BUFFER, BUFFER_VALVES, BYTE, COLLECTED, COMMITTED, FLUSHED, FORMATTED,
    RECOVER, SET, STEP, Trial, VALVES,
};

// A word of the output, then a number, within a line.
fn part(rt: &(impl Print + Eprint), name: &[u8], n: u64) {
    text(rt, name);
    print::number(rt, n);
}

// What a page is.
fn class(rt: &(impl Print + Eprint), s: &[u8; 256]) {
    if page::is_clean(s) {
        text(rt, b"clean\n");
        return;
    }
    if !page::is_whole(s) {
        text(rt, b"spoilt\n");
        return;
    }
    if page::is_lawful(s) {
        text(rt, b"whole, lawful\n");
        return;
    }
    text(rt, b"whole, unlawful\n");
}

// The check of a page, and what the page is.
fn about(rt: &(impl Print + Eprint), s: &[u8; 256]) {
    line(rt, b"check ", codec::le16(s, 0) as u64);
    line(rt, b"zero bits ", page::zero_count(s) as u64);
    class(rt, s);
}

// A byte, as two hexadecimal digits after a space.
fn hex(rt: &(impl Print + Eprint), x: u8) {
    let mut digits = [0u8; 16];
    let k = io::hex(x as u64, 2, &mut digits);
    text(rt, b" ");
    text(rt, &digits[..k]);
}

// The first nine bytes, a space before each.
fn start(rt: &(impl Print + Eprint), s: &[u8; 256]) {
    for x in &s[..9] {
        hex(rt, *x);
    }
    text(rt, b"\n");
}

// The empty base.
fn base(rt: &(impl Print + Eprint)) {
    let mut m = [255u8; 16384];
    trials::play(&mut m, &[FORMATTED]);
    let Some(s) = flash::page(&m, 0) else {
        return;
    };
    text(rt, b"empty base, serial 1:");
    start(rt, s);
    about(rt, s);
}

// Page p of what a list of calls leaves.
fn page_of(rt: &(impl Print + Eprint), name: &[u8], calls: &[u64], p: usize) {
    let mut m = [255u8; 16384];
    trials::play(&mut m, calls);
    text(rt, name);
    if let Some(s) = flash::page(&m, p) {
        about(rt, s);
    }
}

// A node, which is page 1 of its medium, the node torn, and a blank page.
fn pages(rt: &(impl Print + Eprint)) {
    page_of(
        rt,
        b"kind 1, flags 3, n 1, serial 2, valve 5, word 1000:\n",
        &[FORMATTED, APPENDED, 1, 5, 1000],
        1,
    );
    page_of(
        rt,
        b"the same with byte 16 left FFh:\n",
        &[FORMATTED, APPENDED, 1, 5, 1000, BYTE, 272, 255],
        1,
    );
    page_of(rt, b"all FFh:\n", &[], 0);
}

// The pages of an append of n entries.
fn append_pages(rt: &(impl Print + Eprint), n: u64) {
    let mut m = [255u8; 16384];
    let t = trials::play(&mut m, &[FORMATTED, SET, n, 1]);
    print::number(rt, n);
    if t.number != 0 {
        print::answer(rt, b" entries: ", t.number);
        return;
    }
    line(rt, b" entries: pages ", t.steps as u64);
}

// The pages of a commit of `low` valves from 1 on and `high` from 97 on. An append of none is refused, and hands the state back.
fn commit_pages(rt: &(impl Print + Eprint), low: u64, high: u64) {
    let mut m = [255u8; 16384];
    let t = trials::play(&mut m, &[FORMATTED, SET, low, 1, SET, high, 97, COMMITTED]);
    let Some(s) = t.state else {
        return;
    };
    print::number(rt, s.index.count as u64);
    line(rt, b" valves: pages of a commit ", t.steps as u64);
}

// The log and the settings that a list of calls leaves.
fn left(rt: &(impl Print + Eprint), name: &[u8], calls: &[u64]) {
    let mut m = [255u8; 16384];
    trials::play(&mut m, calls);
    text(rt, name);
    print::medium(rt, &m);
}

// An unset valve is removed: the log grows, the settings stay. A valve twice in a group.
fn groups(rt: &(impl Print + Eprint)) {
    left(
        rt,
        b"valve 7 set to 20:\n",
        &[FORMATTED, APPENDED, 1, 7, 20],
    );
    left(
        rt,
        b"valve 5, which is not set, removed:\n",
        &[FORMATTED, APPENDED, 1, 7, 20, APPENDED, 1, 32773, 0],
    );
    left(
        rt,
        b"valve 5 twice in a group:\n",
        &[FORMATTED, APPENDED, 3, 5, 7, 5, 1000, 20, 30],
    );
}

// Condition 1 for a medium of n bytes.
fn rule_1(rt: &(impl Print + Eprint), name: &[u8], n: usize) {
    let number = if blocks::size_ok(n) { 0 } else { 1 };
    print::answer(rt, name, number);
}

// The length of a medium in bytes.
fn lengths(rt: &(impl Print + Eprint)) {
    let sixteen = begin::format(&[255u8; 65536]);
    print::answer(rt, b"format of 65536 bytes: ", sixteen.number);
    let one_more = begin::format(&[255u8; 69632]);
    print::answer(rt, b"format of 69632 bytes: ", one_more.number);
    rule_1(rt, b"condition 1 for 1048576 bytes: ", 1048576);
    rule_1(rt, b"condition 1 for 1052672 bytes: ", 1052672);
}

// The page programmed last: it stands before the head's next.
fn last_page(last: Option<State>) -> usize {
    let Some(s) = last else {
        return 0;
    };
    let h = s.head;
    if 256 <= h.block || 16 < h.next || h.next < 1 {
        return 0;
    }
    16 * h.block + (h.next - 1)
}

// The first block with the record that it was erased; 256 where none has it.
fn erased_block(last: Option<State>) -> usize {
    let Some(s) = last else {
        return 256;
    };
    s.erased.iter().position(|x| *x == 1).unwrap_or(256)
}

// 30 entries, cut after their first page.
fn cut(rt: &(impl Print + Eprint)) {
    let mut m = [255u8; 16384];
    let t = trials::play(&mut m, &[FORMATTED, VALVES, 30, 1, STEP]);
    line(rt, b"30 entries cut after page ", last_page(t.state) as u64);
    print::medium(rt, &m);
}

// The next append after the cut: its two steps.
fn next_append(rt: &(impl Print + Eprint)) {
    let calls = [
        FORMATTED, VALVES, 30, 1, STEP, RECOVER, APPEND, 1, 5, 1000, STEP, STEP,
    ];
    let mut m = [255u8; 16384];
    let t = trials::play(&mut m, &calls[..11]);
    line(
        rt,
        b"the next append erases block ",
        erased_block(t.state) as u64,
    );
    let u = trials::play(&mut m, &calls);
    let p = last_page(u.state);
    part(rt, b"it starts in block ", (p / 16) as u64);
    part(rt, b", page ", (p % 16) as u64);
    line(rt, b", serial ", flash::page_serial(&m, p));
}

// The pages that are available after format.
fn available(rt: &(impl Print + Eprint)) {
    let mut m = [255u8; 16384];
    let t = trials::play(&mut m, &[FORMATTED]);
    let Some(s) = t.state else {
        return;
    };
    let pages = read::available(&m, &s).unwrap_or(0);
    part(rt, b"format of 4 blocks: ", pages as u64);
    text(rt, b" available\n");
}

// 48 groups of one page, the last of them refused: the base has serial 1, and each group that passes takes the next.
fn filled(rt: &(impl Print + Eprint)) {
    let mut m = [255u8; 16384];
    let t = trials::play(&mut m, &trials::groups());
    let Some(s) = t.state else {
        return;
    };
    let next = s.head.serial;
    if 2 <= next {
        line(rt, b"one-page groups that pass: ", next - 2);
    }
    print::answer(rt, b"the next: ", t.number);
}

// The picker's choice.
fn picked(rt: &(impl Print + Eprint), m: &[u8], s: &State) {
    match read::pick(m, s) {
        Ok(Some(block)) => line(rt, b"the picker names block ", block),
        Ok(None) => text(rt, b"the picker names none\n"),
        Err(refusal) => print::refused(rt, refusal.number()),
    }
}

// A row of the survey.
fn row(rt: &(impl Print + Eprint), whole: u16, clean: u16, spoilt: u16) {
    part(rt, b"block 0: whole ", whole as u64);
    part(rt, b", clean ", clean as u64);
    line(rt, b", spoilt ", spoilt as u64);
}

// The survey's row of block 0, and the picker's choice.
fn first_block(rt: &(impl Print + Eprint), m: &[u8], last: Option<State>) {
    let Some(s) = last else {
        return;
    };
    let rows = read::survey(m, &s).unwrap_or([[0u16; 3]; flash::BLOCKS]);
    let first = rows[0];
    row(rt, first[0], first[1], first[2]);
    picked(rt, m, &s);
}

// The document's sample, {5 to 1000, 7 to 20}, {remove 5}; then a recovery, which closes the head, a commit and the collection of block 0:
// the first n numbers of these calls.
fn sample(m: &mut [u8], n: usize) -> Trial
    requires { n ≤ 15 }
{
    let calls = [
        FORMATTED, APPENDED, 2, 5, 7, 1000, 20, APPENDED, 1, 32773, 0, RECOVER, COMMITTED,
        COLLECTED, 0,
    ];
    trials::play(m, &calls[..n])
}

// As far as the recovery.
fn recovered(rt: &(impl Print + Eprint)) {
    let mut m = [255u8; 16384];
    let t = sample(&mut m, 12);
    text(rt, b"{5 to 1000, 7 to 20}, {remove 5}:\n");
    print::medium(rt, &m);
    first_block(rt, &m, t.state);
}

// As far as the commit, into the next block.
fn committed(rt: &(impl Print + Eprint)) {
    let mut m = [255u8; 16384];
    let t = sample(&mut m, 13);
    line(rt, b"after a commit to page ", last_page(t.state) as u64);
    print::medium(rt, &m);
    first_block(rt, &m, t.state);
}

// And the collection.
fn collected(rt: &(impl Print + Eprint)) {
    let mut m = [255u8; 16384];
    let t = sample(&mut m, 15);
    line(
        rt,
        b"after the collection of block 0, steps ",
        t.steps as u64,
    );
    print::medium(rt, &m);
    first_block(rt, &m, t.state);
}

// The most answers that a reader gives of a medium of 4 blocks, 24 changes for each page and 'no more'.
const ANSWERS: usize = 1537;

// What a reader has after its last change: 'no more', or the number that refused it.
fn over(rt: &(impl Print + Eprint), number: u8) {
    if number != 0 {
        print::refused(rt, number);
        return;
    }
    text(rt, b"no more\n");
}

// The log of such a medium through a log reader, its changes one by one.
fn read_out(rt: &(impl Print + Eprint), m: &[u8]) {
    let mut c = log_reader::first(m);
    for _ in 0..ANSWERS {
        if !c.found {
            over(rt, c.next.number);
            return;
        }
        print::change(rt, c.group, c.key, c.word);
        c = log_reader::following(m, c.next);
    }
}

// The sample read change by change, and a medium that was never formatted.
fn change_by_change(rt: &(impl Print + Eprint)) {
    let mut m = [255u8; 16384];
    text(rt, b"all FFh, change by change:\n");
    read_out(rt, &m);
    sample(&mut m, 12);
    text(rt, b"{5 to 1000, 7 to 20}, {remove 5}, change by change:\n");
    read_out(rt, &m);
}

// Bits that fade: the first n numbers of these calls, then one byte of the medium faded to FFh.
fn faded(rt: &(impl Print + Eprint), name: &[u8], n: usize, at: u64)
    requires { n ≤ 15 }
{
    let mut m = [255u8; 16384];
    sample(&mut m, n);
    trials::play(&mut m, &[BYTE, at, 255]);
    text(rt, name);
    print::medium(rt, &m);
}

// Page 2, the newest; page 1, which leaves a gap; the commit's base, behind which an older one stands; the same after the collection, when none does.
fn fading(rt: &(impl Print + Eprint)) {
    faded(rt, b"the sample, its newest page faded:\n", 11, 529);
    faded(rt, b"the page before it faded:\n", 11, 272);
    faded(rt, b"after the commit, its base faded:\n", 13, 4104);
    faded(rt, b"after the collection, that base faded:\n", 15, 4104);
}

// Two groups on one page; and 16 entries in two groups.
fn small_groups(rt: &(impl Print + Eprint)) {
    page_of(
        rt,
        b"{5 to 1000}, {7 to 20, remove 5} flushed, serial 2:\n",
        &[
            FORMATTED, BUFFER, 1, 5, 1000, BUFFER, 2, 7, 32773, 20, 0, FLUSHED,
        ],
        1,
    );
    page_of(
        rt,
        b"16 entries in two groups:\n",
        &[
            FORMATTED,
            BUFFER_VALVES,
            10,
            1,
            BUFFER_VALVES,
            6,
            11,
            FLUSHED,
        ],
        1,
    );
}

// A flush, and one whose program was cut: byte 16 of its page is left FFh.
fn flushes(rt: &(impl Print + Eprint)) {
    left(
        rt,
        b"the first of these:\n",
        &[
            FORMATTED, BUFFER, 1, 5, 1000, BUFFER, 2, 7, 32773, 20, 0, FLUSHED,
        ],
    );
    left(
        rt,
        b"its page torn:\n",
        &[
            FORMATTED, BUFFER, 1, 5, 1000, BUFFER, 2, 7, 32773, 20, 0, FLUSHED, BYTE, 272, 255,
        ],
    );
}

// The word of a valve, in the write buffer or in the medium.
fn word<'a>(rt: &(impl Print + Eprint), m: &'a [u8], s: State, b: &'a [u8], valve: u16) {
    part(rt, b"valve ", valve as u64);
    let w = word::word(m, &s, b, valve);
    if w.len() < 8 {
        let asked = word::place(m, &s, b, valve);
        print::answer(rt, b": ", refusal::number_in(asked));
        return;
    }
    line(rt, b": ", codec::le64(w, 0));
}

// Valves 7, 8 and 9 on the medium; 5 and 7 set and 8 removed in the write buffer.
fn words(rt: &(impl Print + Eprint)) {
    let mut m = [255u8; 16384];
    let mut b = [255u8; 256];
    let t = trials::play_with(
        &mut m,
        &mut b,
        &[
            FORMATTED, SET, 2, 7, APPENDED, 1, 9, 90, BUFFER, 3, 5, 7, 32776, 1000, 20, 0,
        ],
    );
    text(rt, b"valves with a group buffered:\n");
    let Some(s) = t.state else {
        return;
    };
    for valve in [5, 7, 8, 9] {
        word(rt, &m, s, &b, valve);
    }
}

fn main(rt: HostRuntime) {
    base(&rt);
    pages(&rt);
    for n in [24, 25, 96, 97] {
        append_pages(&rt, n);
    }
    for (low, high) in [(0, 0), (24, 0), (25, 0), (96, 96)] {
        commit_pages(&rt, low, high);
    }
    groups(&rt);
    lengths(&rt);
    cut(&rt);
    next_append(&rt);
    available(&rt);
    filled(&rt);
    recovered(&rt);
    committed(&rt);
    collected(&rt);
    change_by_change(&rt);
    fading(&rt);
    small_groups(&rt);
    flushes(&rt);
    words(&rt);
}
