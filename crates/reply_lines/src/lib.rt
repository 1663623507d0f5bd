// The lines that are printed of a reply to a recorded call.
#![tactic(auto)]

ghost use Rattle.std.specs.Prelude.{◌≡◌, ◌+◌, ◌≤◌, ◌<◌};
ghost use Rattle.lists.specs.Lists.{value_or};
ghost use Rattle.lists.specs.Cells.{listed};
ghost use Rattle.flash.specs.Medium.{views};
ghost use Rattle.nodes.specs.Nodes.{word_at, words};
ghost use Rattle.player.specs.Played.{FewSet};
ghost use Rattle.reply_lines.specs.Printed.{many_set, summary_told, CountsLines, GivesLineOf, GivesLine, GivesSetting};

use lists::{Cell, Cells};
use player::{Reply, Told};
use state::State;

// A line to print: a refusal's number, the log's length, the number of valves set, or a valve and its word.
#[derive(Clone, Copy)]
pub enum PrintedLine {
    Refusal(u8),
    LogLength(u64),
    ValvesSet(u64),
    Setting { valve: u16, word: u64 },
}

// How many valves are set in a state, and 0 where it is lost.
fn valves_set(last: Option<State>) -> usize
    ensures { result ≡ many_set last }
{
    let Some(s) = last else {
        return 0;
    };
    s.index.count
}

// How many lines are printed of a reply.
pub fn line_count(r: Reply) -> usize
    requires { FewSet r }
    ensures { CountsLines result r }
{
    match r.told {
        Told::Nothing => 0,
        Told::Refused(_) => 1,
        Told::Recovered(_) => 2 + valves_set(r.last),
    }
}

// The word of a valve at the address of a place of the index, 0 where there is none.
fn word(m: &[u8], place: Cell) -> u64
    ensures { result ≡ value_or 0 (word_at (views m.now) place) }
{
    nodes::word_at(m, place).unwrap_or(0)
}

// The line of the valve at place i of an index.
fn setting(m: &[u8], c: Cells, i: usize) -> PrintedLine
    requires { (i < c.count) × (c.count ≤ 192) }
    ensures { GivesSetting (words (views m.now) (listed c)) i result }
{
    let place = Cell {
        key: c.keys[i],
        val: c.vals[i],
    };
    let word = word(m, place);
    PrintedLine::Setting {
        valve: place.key,
        word,
    }
}

// Line k of a recovery with a log of this length, which left this state, where m is the medium.
// Kept: the numbers are places of lines, and no kinds.
fn recovery_line(m: &[u8], log: usize, last: Option<State>, k: usize) -> PrintedLine
    requires { (many_set last ≤ 192) × (k < 2 + many_set last) }
    ensures { GivesLineOf (summary_told m.now log last) k result }
{
    if k == 0 {
        return PrintedLine::LogLength(log as u64);
    }
    let Some(s) = last else {
        return PrintedLine::ValvesSet(0);
    };
    let c = s.index;
    if k == 1 {
        return PrintedLine::ValvesSet(c.count as u64);
    }
    setting(m, c, k - 2)
}

// Line k of a reply, where m is the medium that was left; past the last one a line that means nothing.
// Kept: a line past the last, since no caller asks for one, and an Option would have each of them take it apart.
pub fn line(m: &[u8], r: Reply, k: usize) -> PrintedLine
    requires { FewSet r }
    ensures { GivesLine m.now r k result }
{
    if line_count(r) <= k {
        return PrintedLine::Refusal(0);
    }
    match r.told {
        Told::Nothing => PrintedLine::Refusal(0),
        Told::Refused(number) => PrintedLine::Refusal(number),
        Told::Recovered(log) => recovery_line(m, log, r.last, k),
    }
}
