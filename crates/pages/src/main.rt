// Reads one medium of at most 1048576 bytes from standard input and prints what its pages are: `pages_text` of what was read, and one byte
// past 1048576 is read to tell that there are more. The text is longer than the memory that it is made in, so it is made and printed part
// after part. Where reading or writing fails that is told on standard error; after a failed read nothing is printed, after a failed write
// nothing more.
#![tactic(auto)]

ghost use Rattle.std.specs.Prelude.{◌≡◌, ◌<◌, is_some, length};
ghost use Rattle.streams.specs.Streams.{Gave};
ghost use Rattle.text.specs.Filled.{filled};
ghost use Rattle.text.specs.Parts.{PartAt, PrintsAll};
ghost use Rattle.page_text.specs.PageText.{pages_text};

use std::io;
use std::io::Write;
use text::Text;

// Bytes of the text of a medium on standard output, of which those before this place were written; whether they were written.
// Kept: its twin in `rerun` promises the part of another text, of a run and not of a medium.
fn write_part<W: Write>(
    output: &mut W,
    errors: &impl Eprint,
    m: &[u8],
    from: usize,
    part: &[u8],
) -> bool
    requires { PartAt (pages_text m.now) from part.now }
    ensures { Gave (W.contents output.old) (W.contents output.new) part.now result }
{
    streams::write(output, errors, part)
}

// The text of a medium, as many bytes at a time as the lent list is long; how many bytes these were, none where a write failed.
// Kept: one loop for `pages` and `rerun` would take a closure over the medium and the buffer, with clauses on both: no plainer.
fn print<W: Write>(
    output: &mut W,
    errors: &impl Eprint,
    m: &[u8],
    out: &mut Text<'_>,
) -> Option<usize>
    requires { 0 < (filled out.old).room }
    ensures all { PrintsAll (pages_text m.now) result }
    ensures gave { Gave (W.contents output.old) (W.contents output.new) (pages_text m.now) (is_some result) }
{
    let mut from: usize = 0;
    // Kept: the text ends where a part of it is not full, so that no count is known before.
    loop {
        page_text::window(m, from, out);
        let part = out.as_bytes();
        if !write_part(output, errors, m, from, part) {
            return None;
        }
        from += part.len();
        if !out.is_full() {
            return Some(from);
        }
    }
}

// Room for the longest medium and one byte more.
fn input_room() -> [u8; 1048577]
    ensures { 1048577 ≡ length result }
{
    [0; 1048577]
}

// Room for a part of its text.
fn text_room() -> [u8; 1048576]
    ensures { 1048576 ≡ length result }
{
    [0; 1048576]
}

fn main(rt: HostRuntime) {
    let mut b = input_room();
    let Some(n) = streams::read(&mut rt.stdin(), &rt, &mut b) else {
        return;
    };
    let mut out = text_room();
    print(&mut io::writer(&rt), &rt, &b[..n], &mut Text::new(&mut out));
}
