// Makes the small example of each number in the papers' tables of refusals, and prints what the call answered.
#![tactic(auto)]

use trials::{
    APPEND, APPENDED, BUFFER, BUFFER_VALVES, BYTE, COLLECT, COMMIT, CUT, FORMATTED, PUT, RECOVER,
    SET, STEP, VALVES,
};

// The last answer to a list of calls on a medium of 16384 bytes FFh.
fn say(rt: &(impl Print + Eprint), text: &[u8], calls: &[u64]) {
    let mut m = [255u8; 16384];
    let t = trials::play(&mut m, calls);
    print::answer(rt, text, t.number);
}

// 1: a medium of three blocks.
fn three_blocks(rt: &(impl Print + Eprint)) {
    let b = begin::format(&[255u8; 12288]);
    print::answer(rt, b"1 12288 bytes: ", b.number);
}

// 2 to 4. Page 0 of a formatted medium is the empty base with serial 1.
fn pages(rt: &(impl Print + Eprint)) {
    say(
        rt,
        b"2 kind 9: ",
        &[FORMATTED, PUT, 1, 9, 2, 1, 1000, RECOVER],
    );
    say(
        rt,
        b"3 page 0 copied to page 1: ",
        &[FORMATTED, PUT, 1, 2, 1, 0, 0, RECOVER],
    );
    say(rt, b"4 16384 bytes FFh: ", &[RECOVER]);
}

// 5 and 6.
fn bases(rt: &(impl Print + Eprint)) {
    say(
        rt,
        b"5 base 1, nodes 2 and 4: ",
        &[FORMATTED, PUT, 1, 1, 2, 1, 9, PUT, 2, 1, 4, 1, 9, RECOVER],
    );
    say(
        rt,
        b"6 base: valve 5 at address 0, itself a base: ",
        &[PUT, 0, 2, 1, 1, 0, RECOVER],
    );
}

// 7: a state of 4 blocks with a medium of 5.
fn other_medium(rt: &(impl Print + Eprint)) {
    let mut m = [255u8; 16384];
    let t = trials::play(&mut m, &[FORMATTED]);
    let Some(s) = t.state else {
        return;
    };
    let b = journal_c::vj_commit(&[255u8; 20480], s, &[255u8; 256]);
    print::answer(rt, b"7 state of 4 blocks, medium of 5: ", b.number);
}

// 8 to 10.
fn operations(rt: &(impl Print + Eprint)) {
    say(
        rt,
        b"8 append, then commit: ",
        &[FORMATTED, APPEND, 1, 5, 1000, COMMIT],
    );
    say(rt, b"9 step after recovery: ", &[FORMATTED, RECOVER, STEP]);
    say(rt, b"10 97 entries: ", &[FORMATTED, VALVES, 97, 1]);
}

// 11 and 12.
fn groups(rt: &(impl Print + Eprint)) {
    say(
        rt,
        b"11 key 32773, word 1: ",
        &[FORMATTED, APPEND, 1, 32773, 1],
    );
    say(rt, b"11 valve 0 set: ", &[FORMATTED, APPEND, 1, 0, 1000]);
    say(
        rt,
        b"11 valve 0 set in the buffer: ",
        &[FORMATTED, BUFFER, 1, 0, 1000],
    );
    say(
        rt,
        b"12 a 193rd: ",
        &[FORMATTED, SET, 96, 1, SET, 96, 97, VALVES, 1, 193],
    );
}

// 13 to 15.
fn room(rt: &(impl Print + Eprint)) {
    say(rt, b"13 the 48th group: ", &trials::groups());
    say(
        rt,
        b"14 next 2^64 - 1: ",
        &[PUT, 0, 2, 18446744073709551614, 0, 0, RECOVER, COMMIT],
    );
    say(rt, b"15 block 0 after format: ", &[FORMATTED, COLLECT, 0]);
}

// 16.
fn damage(rt: &(impl Print + Eprint)) {
    say(
        rt,
        b"16 format, append begun, byte 256 zeroed, then a step: ",
        &[FORMATTED, APPEND, 1, 5, 1000, BYTE, 256, 0, STEP],
    );
}

// 17: two places for three changes.
fn short_lists(rt: &(impl Print + Eprint)) {
    let mut m = [255u8; 16384];
    trials::play(&mut m, &[FORMATTED, APPENDED, 3, 5, 7, 5, 1000, 20, 30]);
    let r = filing::log(&m, &mut [0u16; 3], &mut [0u64; 3], &mut [0u32; 2]);
    print::answer(rt, b"17 3 changes, 2 places: ", refusal::number_in(r));
}

// 18: a valve that is not set.
fn unset_valve(rt: &(impl Print + Eprint)) {
    let mut m = [255u8; 16384];
    let t = trials::play(&mut m, &[FORMATTED]);
    let Some(s) = t.state else {
        return;
    };
    let r = read::opening(&m, &s, 5);
    print::answer(rt, b"18 valve 5 after format: ", refusal::number_in(r));
}

// What a span of the log did, after a list of calls.
fn say_effect(rt: &(impl Print + Eprint), text: &[u8], calls: &[u64], first: u32, second: u32) {
    let mut m = [255u8; 16384];
    trials::play(&mut m, calls);
    let r = spans::effect(&m, first, second);
    print::answer(rt, text, r.number);
}

// 21: ends out of order, an end past the log. 22: 192 valves set, one removed and another set.
fn log_spans(rt: &(impl Print + Eprint)) {
    say_effect(rt, b"21 from 1 to 0: ", &[FORMATTED, SET, 1, 5], 1, 0);
    say_effect(
        rt,
        b"21 from 0 to 2, one group: ",
        &[FORMATTED, SET, 1, 5],
        0,
        2,
    );
    say_effect(
        rt,
        b"22 193 valves touched: ",
        &[
            FORMATTED, SET, 96, 1, SET, 96, 97, APPENDED, 2, 32769, 193, 0, 1000,
        ],
        0,
        3,
    );
}

// 23: a group that the write buffer has no places for. 24: a commit while it holds one.
fn buffers(rt: &(impl Print + Eprint)) {
    say(rt, b"23 17 entries: ", &[FORMATTED, BUFFER_VALVES, 17, 1]);
    say(
        rt,
        b"23 3 entries, 14 buffered: ",
        &[FORMATTED, BUFFER_VALVES, 14, 1, BUFFER_VALVES, 3, 15],
    );
    say(
        rt,
        b"24 commit, a group buffered: ",
        &[FORMATTED, BUFFER, 1, 5, 1000, COMMIT],
    );
}

// Whether a trace has the form; 26 is its negation.
fn say_form(rt: &(impl Print + Eprint), text: &[u8], t: &[u8]) {
    let number = if trace::is_well_formed(t) { 0 } else { 26 };
    print::answer(rt, text, number);
}

// 26: the trace of one call, a format of 4 blocks, with a byte after it; and of 3 blocks.
fn traces(rt: &(impl Print + Eprint)) {
    let mut t = [0u8; 25];
    t[0] = 1;
    t[8] = 1;
    t[16] = 4;
    say_form(rt, b"26 a trace of one format, and a byte: ", &t);
    t[16] = 3;
    say_form(rt, b"26 a trace that formats 3 blocks: ", &t[..24]);
}

// 27: a cut where no step is due, and one that names another page than the step due programs.
fn cuts(rt: &(impl Print + Eprint)) {
    say(
        rt,
        b"27 format, then a cut of page 1: ",
        &[FORMATTED, CUT, 1],
    );
    say(
        rt,
        b"27 append begun, then a cut of page 2: ",
        &[FORMATTED, APPEND, 1, 5, 1000, CUT, 2],
    );
}

fn main(rt: HostRuntime) {
    three_blocks(&rt);
    pages(&rt);
    bases(&rt);
    other_medium(&rt);
    operations(&rt);
    groups(&rt);
    room(&rt);
    damage(&rt);
    short_lists(&rt);
    unset_valve(&rt);
    log_spans(&rt);
    buffers(&rt);
    traces(&rt);
    cuts(&rt);
}
