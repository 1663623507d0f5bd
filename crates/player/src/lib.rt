// A recorded call played: what it does to medium, state and buffer, and its reply.
#![tactic(auto)]

ghost use Rattle.std.specs.Prelude.{◌≡◌, ◌*◌, ◌≤◌, ◌<◌, length, true, false};
ghost use Rattle.flash.specs.Medium.{views};
ghost use Rattle.page.specs.Buffer.{buffer_bytes};
ghost use Rattle.state.specs.State.{meaning};
ghost use Rattle.step.specs.Step.{step_of};
ghost use Rattle.advance.specs.Outcomes.{Performs};
ghost use Rattle.trace.specs.Trace.{Recorded, code_at, has_group};
ghost use Rattle.cut_patterns.specs.Struck.{most_bytes, struck};
ghost use Rattle.player.specs.Played.{struck_by};
ghost use Rattle.player.specs.Played.{world_by, Plays, recorded_by, call_of, CutFits, Starts, PlaysAt, Playable};
ghost use Rattle.player.specs.Played.{answered_by, refused_by, lost_by, restarted_by};

use begin::Begun;
use operations::Stepped;
use refusal::Refusal;
use state::State;
use trace::Kind;

// A call with what is recorded beside it.
#[derive(Clone, Copy)]
pub enum RecordedCall<'a> {
    Format(u64),
    Append { keys: &'a [u16], words: &'a [u64] },
    Commit,
    Collect(u64),
    Step,
    Cut { name: u64, pattern: &'a [u8] },
    Recover,
    Buffer { keys: &'a [u16], words: &'a [u64] },
    Flush,
}

// What is printed of a call: nothing; the number that it was refused with; or, after a recovery, the length of the log, and then the settings.
#[derive(Clone, Copy)]
pub enum Told {
    Nothing,
    Refused(u8),
    Recovered(usize),
}

// How a recorded call went: what is printed of it, whether the run ends with it, and the state last handed back, which is lost after a cut until a
// recovery gives one.
#[derive(Clone, Copy)]
pub struct Reply {
    pub told: Told,
    pub ends: bool,
    pub last: Option<State>,
}

// A reply: the number that a call was refused with or 0, and the state.
fn answered(number: u8, s: State) -> Reply
    ensures { result ≡ answered_by number s }
{
    let told = if number == 0 {
        Told::Nothing
    } else {
        Told::Refused(number)
    };
    Reply {
        told,
        ends: false,
        last: Some(s),
    }
}

// The reply of a call that begins an operation.
fn begun(f: Begun) -> Reply
    ensures { result ≡ answered_by f.number f.state }
{
    let s = f.state;
    answered(f.number, s)
}

// A refusal, after which the state is as it was.
fn refused(number: u8, ends: bool, last: Option<State>) -> Reply
    ensures { result ≡ refused_by number ends last }
{
    Reply {
        told: Told::Refused(number),
        ends,
        last,
    }
}

// The refusal of a call that takes a state, where it is lost.
fn stateless() -> Reply
    ensures { result ≡ refused_by 9 false None }
{
    refused(Refusal::NonePending.number(), false, None)
}

// The refusal of a cut that is not played, which ends the run.
fn no_cut(last: Option<State>) -> Reply
    ensures { result ≡ refused_by 27 true last }
{
    refused(Refusal::Cut.number(), true, last)
}

// Formatting begins; the buffer is lent all FFh from then on.
fn format(m: &[u8], b: &mut [u8], last: Option<State>, blocks: u64) -> Reply
    requires { length b.old ≡ buffer_bytes }
    ensures { Plays (world_by m.now last b.old) (Recorded.format blocks) result m.now b.new }
{
    let f = begin::format(m);
    if f.number != 0 {
        return refused(f.number, false, last);
    }
    buffer::clear(b);
    begun(f)
}

// An append.
fn append<'a>(m: &[u8], b: &[u8], last: Option<State>, keys: &'a [u16], words: &'a [u64]) -> Reply
    ensures { Plays (world_by m.now last b.now) (Recorded.append keys.now words.now) result m.now b.now }
{
    let Some(s) = last else {
        return stateless();
    };
    begun(journal_c::vj_append(m, s, b, keys, words))
}

// A commit.
// Kept: `append`, `commit`, `collect` and `flush` are a line of work each, with promises of their own.
fn commit(m: &[u8], b: &[u8], last: Option<State>) -> Reply
    ensures { Plays (world_by m.now last b.now) Recorded.commit result m.now b.now }
{
    let Some(s) = last else {
        return stateless();
    };
    begun(journal_c::vj_commit(m, s, b))
}

// The collection of a block.
fn collect(m: &[u8], b: &[u8], last: Option<State>, block: u64) -> Reply
    ensures { Plays (world_by m.now last b.now) (Recorded.collect block) result m.now b.now }
{
    let Some(s) = last else {
        return stateless();
    };
    begun(journal_c::vj_collect(m, s, b, block as usize))
}

// A flush.
// Kept: as `commit`.
fn flush(m: &[u8], b: &[u8], last: Option<State>) -> Reply
    ensures { Plays (world_by m.now last b.now) Recorded.flush result m.now b.now }
{
    let Some(s) = last else {
        return stateless();
    };
    begun(journal_c::vj_flush(m, s, b))
}

// A group put into the buffer.
fn buffered<'a>(
    m: &[u8],
    b: &mut [u8],
    last: Option<State>,
    keys: &'a [u16],
    words: &'a [u64],
) -> Reply
    ensures { Plays (world_by m.now last b.old) (Recorded.buffer keys.now words.now) result m.now b.new }
{
    let Some(s) = last else {
        return stateless();
    };
    let number = refusal::number_in(begin::buffer(m, &s, b, keys, words));
    answered(number, s)
}

// One step.
fn step(m: &mut [u8], b: &mut [u8], last: Option<State>) -> Reply
    ensures { Plays (world_by m.old last b.old) Recorded.step result m.new b.new }
{
    let Some(s) = last else {
        return stateless();
    };
    let r = journal_c::vj_step(m, s, b);
    let t = r.state;
    answered(r.number, t)
}

// Recovery: where it is accepted the buffer is lent all FFh from then on, and where it is refused the run ends. A refusal is returned at once, since
// the compiler would fill a state with zeros for each arm of a `match` that answers.
fn recovery(m: &[u8], b: &mut [u8], last: Option<State>) -> Reply
    requires { length b.old ≡ buffer_bytes }
    ensures { Plays (world_by m.now last b.old) Recorded.recover result m.now b.new }
{
    let mut kept = [0u16; flash::PAGES];
    let r = match recover::recover_into(m, &mut kept) {
        Ok(r) => r,
        Err(refusal) => return refused(refusal.number(), true, last),
    };
    let log = changes::count(m, &kept[..r.done]);
    buffer::clear(b);
    restored(log, r.state)
}

// The reply of a recovery that was accepted, with a log of this length.
fn restored(log: usize, s: State) -> Reply
    ensures { result ≡ restarted_by log s }
{
    Reply {
        told: Told::Recovered(log),
        ends: false,
        last: Some(s),
    }
}

// The most bytes of a medium that a trace is played on: 16 blocks.
pub const BYTES: usize = 65536;

// Room for a copy of a medium.
fn room() -> [u8; BYTES]
    ensures { length result ≡ most_bytes }
{
    [0; BYTES]
}

// A step on a copy of the medium, with a copy of the buffer.
fn rehearse(copy: &mut [u8], b: &[u8], s: State) -> Stepped
    requires { length b.now ≡ buffer_bytes }
    ensures { Performs copy.old s b.now result copy.new }
{
    let mut lent = [0u8; 256];
    lent.copy_from_slice(b);
    journal_c::vj_step(copy, s, &mut lent)
}

// A cut in the step due, which is found on a copy of the medium, in this room: whether there is one and the cut names what it touches, and then the
// medium that it leaves.
fn strike_with(copy: &mut [u8], m: &mut [u8], b: &[u8], s: State, name: u64, pattern: &[u8]) -> bool
    requires { (length copy.old ≡ length m.old) × (length m.old ≤ most_bytes) × (length b.now ≡ buffer_bytes) }
    ensures { struck result m.new ≡ struck_by m.old name pattern.now (step_of (length m.old) (views m.old) (meaning s) b.now) }
{
    copy.copy_from_slice(m);
    let r = rehearse(copy, b, s);
    cut_patterns::leave(m, copy, &r, name, pattern)
}

// The same with room of its own.
fn strike(m: &mut [u8], b: &[u8], s: State, name: u64, pattern: &[u8]) -> bool
    requires { (length m.old ≤ most_bytes) × (length b.now ≡ buffer_bytes) }
    ensures { struck result m.new ≡ struck_by m.old name pattern.now (step_of (length m.old) (views m.old) (meaning s) b.now) }
{
    let n = m.len();
    let mut copy = room();
    strike_with(&mut copy[..n], m, b, s, name, pattern)
}

// A cut in the place of the step due, after which the state is lost and the buffer all FFh; 27, and the end of the run, where none is due or the cut
// names another page or block.
fn cut(m: &mut [u8], b: &mut [u8], last: Option<State>, name: u64, pattern: &[u8]) -> Reply
    requires { (length m.old ≤ most_bytes) × (length b.old ≡ buffer_bytes) }
    ensures { Plays (world_by m.old last b.old) (Recorded.cut name pattern.now) result m.new b.new }
{
    let Some(s) = last else {
        return no_cut(None);
    };
    if !strike(m, b, s, name, pattern) {
        return no_cut(Some(s));
    }
    buffer::clear(b);
    Reply {
        told: Told::Nothing,
        ends: false,
        last: None,
    }
}

// One call.
pub fn perform(m: &mut [u8], b: &mut [u8], last: Option<State>, c: RecordedCall) -> Reply
    requires { CutFits c m.old × (length b.old ≡ buffer_bytes) }
    ensures { Plays (world_by m.old last b.old) (recorded_by c.entry) result m.new b.new }
{
    match c {
        RecordedCall::Format(blocks) => format(m, b, last, blocks),
        RecordedCall::Append { keys, words } => append(m, b, last, keys, words),
        RecordedCall::Commit => commit(m, b, last),
        RecordedCall::Collect(block) => collect(m, b, last, block),
        RecordedCall::Step => step(m, b, last),
        RecordedCall::Cut { name, pattern } => cut(m, b, last, name, pattern),
        RecordedCall::Recover => recovery(m, b, last),
        RecordedCall::Buffer { keys, words } => buffered(m, b, last, keys, words),
        RecordedCall::Flush => flush(m, b, last),
    }
}

// The call with this code, of the arguments those that it has.
#[tactic(auto, unfolding(crate::specs::Played::call_of))]
fn recorded_call<'a>(
    code: u64,
    number: u64,
    keys: &'a [u16],
    words: &'a [u64],
    pattern: &'a [u8],
) -> RecordedCall<'a>
    ensures { recorded_by result ≡ call_of code number keys.now words.now pattern.now }
{
    match code {
        trace::FORMAT => RecordedCall::Format(number),
        trace::APPEND => RecordedCall::Append { keys, words },
        trace::COMMIT => RecordedCall::Commit,
        trace::COLLECT => RecordedCall::Collect(number),
        trace::STEP => RecordedCall::Step,
        trace::CUT => RecordedCall::Cut {
            name: number,
            pattern,
        },
        trace::RECOVER => RecordedCall::Recover,
        trace::BUFFER => RecordedCall::Buffer { keys, words },
        _ => RecordedCall::Flush,
    }
}

// One call, by its code and the arguments that it has; what stands for the others means nothing. Any code but the first eight is that of a
// flush.
pub fn call<'a>(
    m: &mut [u8],
    b: &mut [u8],
    last: Option<State>,
    code: u64,
    number: u64,
    keys: &'a [u16],
    words: &'a [u64],
    pattern: &[u8],
) -> Reply
    requires { (code ≡ 6 → length m.old ≤ most_bytes) × (length b.old ≡ buffer_bytes) }
    ensures { Plays (world_by m.old last b.old) (call_of code number keys.now words.now pattern.now) result m.new b.new }
{
    let c = recorded_call(code, number, keys, words, pattern);
    perform(m, b, last, c)
}

// Where a run starts: the medium and the buffer all FFh, and no state yet.
#[tactic(auto, unfolding(codec::specs::Codec::blank))]
pub fn start(m: &mut [u8], b: &mut [u8]) -> Option<State>
    requires { length b.old ≡ buffer_bytes }
    ensures { Starts m.old result m.new b.new }
{
    m.fill(255);
    buffer::clear(b);
    None
}

// Call i of a trace, which has a group; its bytes start at `at`. Of a longer group 97 entries are read: it is refused whatever they are.
fn play_group(
    t: &[u8],
    i: usize,
    at: usize,
    m: &mut [u8],
    b: &mut [u8],
    last: Option<State>,
) -> Reply
    requires { Playable t.now i at m.old b.old × (has_group (code_at t.now i) ≡ true) }
    ensures { PlaysAt t.now i m.old last b.old result m.new b.new }
{
    let n = trace::number(t, i);
    let k = trace::entries(n);
    let all_keys = trace::keys(t, at, k);
    let all_words = trace::words(t, at + 2 * (n as usize), k);
    let keys = &all_keys[..k];
    let words = &all_words[..k];
    match trace::kind_at(t, i) {
        Kind::Append => perform(m, b, last, RecordedCall::Append { keys, words }),
        _ => perform(m, b, last, RecordedCall::Buffer { keys, words }),
    }
}

// Call i of a trace, whose bytes start at `at`.
pub fn play(t: &[u8], i: usize, at: usize, m: &mut [u8], b: &mut [u8], last: Option<State>) -> Reply
    requires { Playable t.now i at m.old b.old }
    ensures { PlaysAt t.now i m.old last b.old result m.new b.new }
{
    let n = trace::number(t, i);
    match trace::kind_at(t, i) {
        Kind::Format => perform(m, b, last, RecordedCall::Format(n)),
        Kind::Append | Kind::Buffer => play_group(t, i, at, m, b, last),
        Kind::Commit => perform(m, b, last, RecordedCall::Commit),
        Kind::Collect => perform(m, b, last, RecordedCall::Collect(n)),
        Kind::Step => perform(m, b, last, RecordedCall::Step),
        Kind::Cut => {
            let pattern = trace::pattern(t, at, n);
            perform(m, b, last, RecordedCall::Cut { name: n, pattern })
        }
        Kind::Recover => perform(m, b, last, RecordedCall::Recover),
        Kind::Flush => perform(m, b, last, RecordedCall::Flush),
    }
}
