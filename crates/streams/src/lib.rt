// Standard input and standard output, and what is told on standard error where they fail. The reader and the writer are parameters, so
// that of one whose bytes are known the promises say which bytes are read and written.
#![tactic(auto)]

ghost use Rattle.std.specs.Prelude.{◌≡◌, ◌≤◌, length, IfSome, IfOk};
ghost use Rattle.std.specs.Result.{result_ok};
ghost use Rattle.streams.specs.Streams.{Gave, Got, Repeats, Took, after_read};

use std::fmt::Write as _;
use std::io::{Error, ErrorKind, Read, Write};
use std::{fmt, io};

// How often in a row a read or a write that a signal interrupts is made again before it counts as failed.
const AGAIN: usize = 1000;

// Why a call failed, in the system's words, without the number that the library tells behind them.
#[derive(Drop)]
struct Reason(Error);

impl fmt::Display for Reason {
    fn fmt<W: fmt::Write>(&self, f: &mut fmt::Formatter<W>) -> fmt::Result {
        let error = self.0;
        write!(Words { to: f, over: false }, "{error}")
    }
}

// A text that is written on as far as where the library begins to tell the number.
#[derive(Drop)]
struct Words<'a, W> {
    to: &'a mut W,
    over: bool,
}

impl<W: fmt::Write> fmt::Write for Words<'_, W> {
    fn write_str(&mut self, s: &str) -> fmt::Result {
        if self.over || s == " (os error " {
            self.over = true;
            return Ok(());
        }
        self.to.write_str(s)
    }
}

// What could not be done is told on standard error, with the reason.
fn tell(errors: &impl Eprint, what: &str, error: Error) {
    let reason = Reason(error);
    let _ = eprintln!(errors; "cannot {what}: {reason}");
}

// How reading stands: there may be more behind so many bytes; or it is over, with so many, or with the error of the read that failed.
#[derive(Clone, Copy)]
enum Reading {
    On(usize),
    Over(io::Result<usize>),
}

// Whether a call that gave this answer is made again, which it may be so many times yet: where a signal interrupted it.
fn is_made_again(answer: io::Result<usize>, left: usize) -> bool
    ensures { Repeats left answer result }
{
    match answer {
        Ok(_) => false,
        Err(error) => 0 < left && error.kind() == ErrorKind::Interrupted,
    }
}

// How reading stands after `done` bytes and a read of more that gave this answer.
#[tactic(auto, unfolding(crate::specs::Streams::after_read))]
fn after_read(buf: &[u8], done: usize, answer: io::Result<usize>) -> Reading
    requires { done ≤ length buf.now }
    ensures { result ≡ after_read (length buf.now) done answer }
{
    match answer {
        Ok(n) => {
            let more = n.min(buf.len() - done);
            if more == 0 {
                return Reading::Over(Ok(done));
            }
            Reading::On(done + more)
        }
        Err(error) => Reading::Over(Err(error)),
    }
}

// Standard input to its end, or as much of it as the list is long: how many bytes, or the error of the read that failed.
fn read_all<R: Read>(input: &mut R, buf: &mut [u8]) -> io::Result<usize>
    ensures got { IfOk result (Got buf.new) }
    ensures took { IfOk result (Took (R.remaining input.old) (R.remaining input.new) buf.new) }
{
    let mut done: usize = 0;
    let mut left = AGAIN;
    // Kept: a read gives as many bytes as it likes, so that no count of turns is known before.
    while done < buf.len() {
        let answer = input.read(&mut buf[done..]);
        if is_made_again(answer, left) {
            left -= 1;
            continue;
        }
        match after_read(buf, done, answer) {
            Reading::Over(all) => return all,
            Reading::On(so_far) => done = so_far,
        }
        left = AGAIN;
    }
    Ok(done)
}

// How many bytes were read; a read that failed is told on standard error, with the reason.
fn told(errors: &impl Eprint, answer: io::Result<usize>) -> Option<usize>
    ensures { result ≡ result_ok answer }
{
    match answer {
        Ok(n) => Some(n),
        Err(error) => {
            tell(errors, "read standard input", error);
            None
        }
    }
}

// Standard input to its end, or as much of it as the list is long: how many bytes. A read that fails is not taken for the end: it is told
// on standard error, with the reason, and the answer is none.
pub fn read<R: Read>(input: &mut R, errors: &impl Eprint, buf: &mut [u8]) -> Option<usize>
    ensures got { IfSome result (Got buf.new) }
    ensures took { IfSome result (Took (R.remaining input.old) (R.remaining input.new) buf.new) }
{
    told(errors, read_all(input, buf))
}

// Bytes on standard output; whether all of them were written. Where not, that is told on standard error.
// Kept: the loop is like that of `read_all`, but promises other things of other bytes; one loop for both would be no plainer.
pub fn write<W: Write>(output: &mut W, errors: &impl Eprint, text: &[u8]) -> bool
    ensures { Gave (W.contents output.old) (W.contents output.new) text.now result }
{
    let mut done: usize = 0;
    let mut left = AGAIN;
    // Kept: a write takes as many bytes as it likes.
    while done < text.len() {
        let answer = output.write(&text[done..]);
        if is_made_again(answer, left) {
            left -= 1;
            continue;
        }
        match answer {
            Ok(0) => {
                let _ = eprintln!(errors; "cannot write standard output: it takes no byte");
                return false;
            }
            Ok(taken) => done += taken,
            Err(error) => {
                tell(errors, "write standard output", error);
                return false;
            }
        }
        left = AGAIN;
    }
    true
}
