// What the pages of a medium are, which `pages` prints, as text in a lent list of bytes.
#![tactic(auto)]

ghost use Rattle.std.specs.Prelude.{◌≡◌, ◌/◌, length};
ghost use Rattle.text.specs.Text.{Puts};
ghost use Rattle.text.specs.Parts.{Sees};
ghost use Rattle.page.specs.Layout.{decode};
ghost use Rattle.page_text.specs.PageText.{kind_name, flags_name, kind_text, flags_text, fields_text};
ghost use Rattle.page_text.specs.PageText.{rules_text, class_text, entry_line, entry_lines, page_text, clean_line};
ghost use Rattle.page_text.specs.PageText.{lines_from, end_of, pages_text};

use lists::Cell;
use text::Text;

// The bytes of the longest medium: 256 blocks.
pub const BYTES: usize = 1048576;

// Each function puts its text behind a text in a lent list. What a kind is called.
// Kept: two tables of words, each the definition of its name.
fn kind_name(out: &mut Text<'_>, kind: u8)
    ensures { Puts out.old (kind_name kind) out.new }
{
    match kind {
        1 => out.push(b" (nodes)"),
        2 => out.push(b" (base)"),
        3 => out.push(b" (moved nodes)"),
        4 => out.push(b" (small groups)"),
        _ => out.push(b" (unknown)"),
    }
}

// What flags say of the group.
// Kept: as `kind_name`.
fn flags_name(out: &mut Text<'_>, flags: u8)
    ensures { Puts out.old (flags_name flags) out.new }
{
    match flags {
        0 => out.push(b" (neither begins nor ends)"),
        1 => out.push(b" (begins)"),
        2 => out.push(b" (ends)"),
        3 => out.push(b" (begins and ends)"),
        _ => out.push(b" (unknown)"),
    }
}

// The kind.
fn kind(out: &mut Text<'_>, kind: u8)
    ensures { Puts out.old (kind_text kind) out.new }
{
    out.field(b"kind ", u64::from(kind));
    kind_name(out, kind);
}

// The flags.
fn flags(out: &mut Text<'_>, flags: u8)
    ensures { Puts out.old (flags_text flags) out.new }
{
    out.field(b", flags ", u64::from(flags));
    flags_name(out, flags);
}

// What the bytes of a page say: kind, flags, serial and n.
fn fields(out: &mut Text<'_>, s: &[u8; 256])
    ensures { Puts out.old (fields_text s.now) out.new }
{
    kind(out, s[2]);
    flags(out, s[3]);
    out.field(b", serial ", codec::le64(s, 8));
    out.field(b", entries ", page::used(s) as u64);
}

// Whether a page keeps the page rules.
fn rules(out: &mut Text<'_>, s: &[u8; 256])
    ensures { Puts out.old (rules_text (decode s.now)) out.new }
{
    if page::is_lawful(s) {
        out.push(b", keeps the rules");
    } else {
        out.push(b", breaks the rules");
    }
}

// Whole or spoilt, and what its bytes say.
fn class(out: &mut Text<'_>, s: &[u8; 256])
    ensures { Puts out.old (class_text s.now) out.new }
{
    if page::is_whole(s) {
        out.push(b": whole, ");
        fields(out, s);
        rules(out, s);
    } else {
        out.push(b": spoilt, reads as ");
        fields(out, s);
    }
}

// Entry i.
fn entry(out: &mut Text<'_>, i: usize, e: Cell)
    ensures { Puts out.old (entry_line i e) out.new }
{
    out.field(b"  entry ", i as u64);
    out.field(b": key ", u64::from(e.key));
    out.field(b", word ", e.val);
    out.push(b"\n");
}

// The entries of a page: as many as it says, and at most the 24 that it has places for.
fn entries(out: &mut Text<'_>, s: &[u8; 256])
    ensures { Puts out.old (entry_lines 0 (decode s.now).entries) out.new }
{
    let count = page::used(s).min(24);
    for i in 0..count {
        entry(out, i, page::entry(s, i));
    }
}

// Page p, which is not clean.
fn page(out: &mut Text<'_>, p: usize, s: &[u8; 256])
    ensures { Puts out.old (page_text p s.now) out.new }
{
    out.field(b"page ", p as u64);
    class(out, s);
    out.push(b"\n");
    entries(out, s);
}

// The clean pages from page a up to the one before page e.
fn clean(out: &mut Text<'_>, a: usize, e: usize)
    ensures { Puts out.old (clean_line a e) out.new }
{
    if e <= a {
        return;
    }
    if a + 1 == e {
        out.field(b"page ", a as u64);
        out.push(b": clean\n");
    } else {
        out.field(b"pages ", a as u64);
        out.field(b" to ", (e - 1) as u64);
        out.push(b": clean\n");
    }
}

// All pages. Those from `first` up to the one before page p are clean and have not been told yet.
fn pages(out: &mut Text<'_>, m: &[u8])
    ensures { Puts out.old (lines_from m.now (length m.now / 256) 0 0) out.new }
{
    let n = m.len() / 256;
    let mut first: usize = 0;
    for p in 0..n {
        let s = flash::page(m, p).unwrap();
        if page::is_clean(s) {
            continue;
        }
        clean(out, first, p);
        page(out, p, s);
        first = p + 1;
    }
    clean(out, first, n);
}

// The number that recovery refuses with, if it does.
fn end(out: &mut Text<'_>, m: &[u8])
    ensures { Puts out.old (end_of m.now) out.new }
{
    let r = recover::recover(m);
    if r.number != 0 {
        listing::refusal(out, r.number);
    }
}

// Of the text of a medium the bytes from this one on, as far as the list is long.
pub fn window(m: &[u8], from: usize, out: &mut Text<'_>)
    ensures { Sees (pages_text m.now) from out.old out.new }
{
    out.start(from);
    if BYTES < m.len() {
        listing::refusal(out, 1);
        return;
    }
    pages(out, m);
    end(out, m);
}
