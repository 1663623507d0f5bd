// Reads a trace of at most 65536 bytes from standard input and prints the text of its run; `refused 26` alone where it breaks the form,
// as one of more bytes does. What is printed is `run_text` of what was read, part after part, and one byte past 65536 is read to tell that
// there are more. Where reading or writing fails that is told on standard error, and after a failed read nothing is printed.
#![tactic(auto)]

ghost use Rattle.std.specs.Prelude.{◌≡◌, ◌<◌, is_some, length};
ghost use Rattle.streams.specs.Streams.{Gave};
ghost use Rattle.text.specs.Filled.{filled};
ghost use Rattle.text.specs.Parts.{PartAt, PrintsAll};
ghost use Rattle.page.specs.Buffer.{buffer_bytes};
ghost use Rattle.run_text.specs.RunText.{run_text};

use std::io;
use std::io::Write;
use text::Text;

// Bytes of the text of a trace on standard output, of which those before this place were written; whether they were written.
// Kept: its twin in `pages` promises the part of another text, of a medium and not of a run.
fn write_part<W: Write>(
    output: &mut W,
    errors: &impl Eprint,
    t: &[u8],
    from: usize,
    part: &[u8],
) -> bool
    requires { PartAt (run_text t.now) from part.now }
    ensures { Gave (W.contents output.old) (W.contents output.new) part.now result }
{
    streams::write(output, errors, part)
}

// The text of a trace, part after part, and how many bytes it has; none where a write failed. The trace is played from its start for each
// part, on a medium and with a buffer that are lent for that.
// Kept: one loop for `pages` and `rerun` would take a closure over the medium and the buffer, with clauses on both: no plainer.
fn print<W: Write>(
    output: &mut W,
    errors: &impl Eprint,
    t: &[u8],
    m: &mut [u8],
    b: &mut [u8],
    out: &mut Text<'_>,
) -> Option<usize>
    requires { (length m.old ≡ 65536) × (length b.old ≡ buffer_bytes) × (0 < (filled out.old).room) }
    ensures all { PrintsAll (run_text t.now) result }
    ensures gave { Gave (W.contents output.old) (W.contents output.new) (run_text t.now) (is_some result) }
{
    let mut from: usize = 0;
    // Kept: the text ends where a part of it is not full, so that no count is known before.
    loop {
        run_text::window(t, from, m, b, out);
        let part = out.as_bytes();
        if !write_part(output, errors, t, from, part) {
            return None;
        }
        from += part.len();
        if !out.is_full() {
            return Some(from);
        }
    }
}

// Room for the longest medium of a trace.
fn medium_room() -> [u8; 65536]
    ensures { 65536 ≡ length result }
{
    [0; 65536]
}

// Room for a part of the text.
fn text_room() -> [u8; 524288]
    ensures { 524288 ≡ length result }
{
    [0; 524288]
}

// Room for the longest trace, and one byte more.
fn input_room() -> [u8; 65537]
    ensures { 65537 ≡ length result }
{
    [0; 65537]
}

// A trace.
fn rerun(rt: &(impl Print + Eprint), t: &[u8]) {
    let mut m = medium_room();
    let mut b = [0u8; 256];
    let mut out = text_room();
    print(
        &mut io::writer(rt),
        rt,
        t,
        &mut m,
        &mut b,
        &mut Text::new(&mut out),
    );
}

fn main(rt: HostRuntime) {
    let mut t = input_room();
    let Some(n) = streams::read(&mut rt.stdin(), &rt, &mut t) else {
        return;
    };
    rerun(&rt, &t[..n]);
}
