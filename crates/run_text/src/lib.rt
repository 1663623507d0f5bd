// The text of a recorded run, which `rerun` prints, part by part: in a lent list of bytes that may be shorter than the text.
#![tactic(auto)]

ghost use Rattle.std.specs.Prelude.{◌≡◌, true, cond, ◌+◌, ◌*◌, ◌-◌, ◌≤◌, length};
ghost use Rattle.text.specs.Filled.{filled};
ghost use Rattle.text.specs.Text.{Puts};
ghost use Rattle.text.specs.Parts.{Sees};
ghost use Rattle.page.specs.Buffer.{buffer_bytes};
ghost use Rattle.trace.specs.Trace.{number_at, well_formed};
ghost use Rattle.listing.specs.Listing.{refusal_line};
ghost use Rattle.player.specs.Played.{lines_by, FewSet};
ghost use Rattle.reply_lines.specs.Printed.{line_of};
ghost use Rattle.run_text.specs.RunText.{line_text, lines_text, run_text};
ghost use Rattle.run_text.specs.Running.{StartsRun, Ready, Turns};

use player::Reply;
use refusal::Refusal;
use reply_lines::PrintedLine;
use state::State;
use text::Text;

// Where a run stands: how many calls are left (0: the run is over), the call that is next, the place of its bytes, and the state.
#[derive(Clone, Copy)]
pub struct Run {
    pub left: usize,
    pub call: usize,
    pub at: usize,
    pub last: Option<State>,
}

// A line, behind the text that is there.
fn line(out: &mut Text<'_>, l: PrintedLine)
    ensures { Puts out.old (line_text (line_of l)) out.new }
{
    match l {
        PrintedLine::Refusal(n) => listing::refusal(out, n),
        PrintedLine::LogLength(n) => listing::log_length(out, n),
        PrintedLine::ValvesSet(n) => listing::valves_set(out, n),
        PrintedLine::Setting { valve, word } => listing::setting(out, u64::from(valve), word),
    }
}

// The lines of a reply, where m is the medium that was left.
fn reply(m: &[u8], r: Reply, out: &mut Text<'_>)
    requires { FewSet r }
    ensures { Puts out.old (lines_text (lines_by m.now r)) out.new }
{
    for k in 0..reply_lines::line_count(r) {
        line(out, reply_lines::line(m, r, k));
    }
}

// The run after a call with this reply: over where the reply ends it, else with so many calls left, the next of which has this number and place.
fn moved(r: Reply, left: usize, call: usize, at: usize) -> Run
    ensures { result ≡ record { left = cond r.ends 0 left; call = call; at = at; last = r.last } }
{
    let last = r.last;
    if r.ends {
        return Run {
            left: 0,
            call: call,
            at: at,
            last: last,
        };
    }
    Run {
        left: left,
        call: call,
        at: at,
        last: last,
    }
}

// One call played, and its lines.
fn turn(t: &[u8], run: Run, m: &mut [u8], b: &mut [u8], out: &mut Text<'_>) -> Run
    requires { Ready t.now run m.old b.old }
    ensures { Turns t.now run m.old b.old (filled out.old) result m.new b.new (filled out.new) }
{
    let i = run.call;
    let at = run.at;
    let left = run.left;
    let last = run.last;
    let r = player::play(t, i, at, m, b, last);
    reply(m, r, out);
    let bytes = trace::data_size(t, i);
    moved(r, left - 1, i + 1, at + bytes)
}

// The start of a run on a medium of the blocks that the trace's first call names.
fn first(t: &[u8], m: &mut [u8], b: &mut [u8]) -> Run
    requires { (well_formed t.now ≡ true) × (length m.old ≡ 4096 * number_at t.now 0) × (length b.old ≡ buffer_bytes) }
    ensures { StartsRun t.now result m.new b.new }
{
    let last = player::start(m, b);
    let count = trace::count(t);
    Run {
        left: count,
        call: 0,
        at: 8 + 16 * count,
        last: last,
    }
}

// The calls of a trace in turn, to the last or to one that ends the run, or until the list is full.
fn calls(t: &[u8], from: usize, m: &mut [u8], b: &mut [u8], out: &mut Text<'_>)
    requires { (well_formed t.now ≡ true) × (length m.old ≡ 4096 * number_at t.now 0) × (length b.old ≡ buffer_bytes) }
    ensures { Sees (run_text t.now) from out.old out.new }
{
    out.start(from);
    let mut run = first(t, m, b);
    // Kept: a reply may end the run, and `Stands` speaks of the calls left.
    while run.left != 0 {
        if out.is_full() {
            return;
        }
        run = turn(t, run, m, b, out);
    }
}

// The bytes of the medium that a trace is played on: the blocks that its first call names.
fn medium_size(t: &[u8]) -> usize
    requires { well_formed t.now ≡ true }
    ensures { (result ≡ 4096 * number_at t.now 0) × (result ≤ 65536) }
{
    4096 * (trace::number(t, 0) as usize)
}

// The text of a trace that breaks the form.
fn broken(from: usize, out: &mut Text<'_>)
    ensures { Sees (refusal_line 26) from out.old out.new }
{
    out.start(from);
    listing::refusal(out, Refusal::Trace.number());
}

// The text of a trace from this byte on, as far as the list is long. The trace is played from its start, on a medium and with a buffer that are lent for
// that.
pub fn window(t: &[u8], from: usize, m: &mut [u8], b: &mut [u8], out: &mut Text<'_>)
    requires { (length m.old ≡ 65536) × (length b.old ≡ buffer_bytes) }
    ensures { Sees (run_text t.now) from out.old out.new }
{
    if !trace::is_well_formed(t) {
        return broken(from, out);
    }
    let size = medium_size(t);
    calls(t, from, &mut m[..size], b, out);
}
