// Reads one medium of at most 65536 bytes from standard input and prints its listing: the log, then each valve that is set with its word;
// or `refused` and the number, 1 for more bytes. What is printed is `listing` of what was read, and one byte past 65536 is read to tell
// that there are more. Where reading or writing fails that is told on standard error, and after a failed read nothing is printed.
#![tactic(auto)]

ghost use Rattle.std.specs.Prelude.{◌≡◌, length};

use std::io;

// Room for the longest medium that is listed, and one byte more.
fn input_room() -> [u8; 65537]
    ensures { 65537 ≡ length result }
{
    [0; 65537]
}

// Room for the longest listing.
fn text_room() -> [u8; 524288]
    ensures { 524288 ≡ length result }
{
    [0; 524288]
}

fn main(rt: HostRuntime) {
    let mut b = input_room();
    let Some(n) = streams::read(&mut rt.stdin(), &rt, &mut b) else {
        return;
    };
    let mut out = text_room();
    let k = listing::medium_into(&b[..n], &mut out);
    streams::write(&mut io::writer(&rt), &rt, &out[..k]);
}
