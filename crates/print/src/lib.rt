// Lines on standard output, for the programs that run the papers' examples: text, numbers, answers of calls, and listings.
#![tactic(auto)]

ghost use Rattle.std.specs.Prelude.{◌≡◌, length};

use lists::Cell;
use std::io;
use text::Text;

// Text as it is.
pub fn text(rt: &(impl Print + Eprint), s: &[u8]) {
    streams::write(&mut io::writer(rt), rt, s);
}

// A number, decimal.
pub fn number(rt: &(impl Print + Eprint), n: u64) {
    let mut room = [0u8; 20];
    let mut digits = Text::new(&mut room);
    digits.number(n);
    let k = digits.as_bytes().len();
    text(rt, &room[..k]);
}

// A word of the output, then a number, at the end of a line.
pub fn line(rt: &(impl Print + Eprint), name: &[u8], n: u64) {
    text(rt, name);
    number(rt, n);
    text(rt, b"\n");
}

// A refusal, as in a listing.
pub fn refused(rt: &(impl Print + Eprint), number: u8) {
    let mut room = [0u8; 32];
    let mut out = Text::new(&mut room);
    listing::refusal(&mut out, number);
    text(rt, out.as_bytes());
}

// A call, and its answer: the number that it refused with, or 0.
pub fn answer(rt: &(impl Print + Eprint), call: &[u8], number: u8) {
    text(rt, call);
    if number == 0 {
        text(rt, b"passed\n");
        return;
    }
    refused(rt, number);
}

// One change, as in a listing.
pub fn change(rt: &(impl Print + Eprint), group: u32, key: u16, word: u64) {
    let mut room = [0u8; 64];
    let mut out = Text::new(&mut room);
    listing::change(&mut out, group, Cell { key, val: word });
    text(rt, out.as_bytes());
}

// Room for the longest listing.
fn room() -> [u8; 524288]
    ensures { 524288 ≡ length result }
{
    [0; 524288]
}

// The listing of a medium.
pub fn medium(rt: &(impl Print + Eprint), m: &[u8]) {
    let mut out = room();
    let k = listing::medium_into(m, &mut out);
    text(rt, &out[..k]);
}
