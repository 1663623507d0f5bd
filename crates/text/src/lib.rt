// Text put into a lent list of bytes.
#![tactic(auto)]

ghost use Rattle.std.specs.Prelude.{◌≡◌, ◌++◌, ◌==◌, ◌≤◌, length};

// A text in a lent list of bytes: how many of them, from the first on, are there, and how many bytes are still to be left out, where the
// list is a window on a longer text. Promises see it as `filled` of it.
// Kept: no model, since a caller's proof knows what it lent only while it sees which list the text is in.
#[derive(Drop)]
pub struct Text<'a> {
    bytes: &'a mut [u8],
    len: usize,
    skip: usize,
    ghost inside: { len ≤ length bytes.now },
}

impl<'a> Text<'a> {
    ghost use Rattle.text.specs.Filled.{filled, starting, resuming};
    ghost use Rattle.text.specs.Text.{ascii, decimal, Puts};

    // A text of no byte, in this list.
    pub fn new(bytes: &'a mut [u8]) -> Text<'a>
        ensures text { filled result ≡ starting bytes.entry.ghost_name (length bytes.old) 0 }
        ensures same_list { result.bytes.ghost_name ≡ bytes.entry.ghost_name }
    {
        Text::resume(bytes, 0, 0)
    }

    // A text of the first bytes of this list, so many of them, or all where these are fewer; so many bytes of what is put behind them are
    // to be left out.
    pub fn resume(bytes: &'a mut [u8], len: usize, skip: usize) -> Text<'a>
        ensures text { filled result ≡ resuming bytes.entry.ghost_name bytes.old len skip }
        ensures same_list { result.bytes.ghost_name ≡ bytes.entry.ghost_name }
    {
        let len = len.min(bytes.len());
        Text { bytes, len, skip }
    }

    // A text of no byte again, of which the list will show the bytes from this one on.
    pub fn start(&mut self, from: usize)
        ensures { filled self.new ≡ starting (filled self.old).list (filled self.old).room from }
    {
        self.len = 0;
        self.skip = from;
    }

    // The bytes that are there.
    pub fn as_bytes(&self) -> &[u8]
        ensures { result.now ≡ (filled self.now).text }
    {
        &self.bytes[..self.len]
    }

    // Whether these are as many as the list is long.
    pub fn is_full(&self) -> bool
        ensures { result ≡ (length (filled self.now).text == (filled self.now).room) }
    {
        self.len == self.bytes.len()
    }

    // Bytes behind the text, as many as there is room for; the first of them are left out where some are still to be.
    pub fn push(&mut self, s: &[u8])
        ensures { Puts self.old s.now self.new }
    {
        let before = self.skip.min(s.len());
        let shown = &s[before..];
        let n = self.len;
        let k = shown.len().min(self.bytes.len() - n);
        self.bytes[n..n + k].copy_from_slice(&shown[..k]);
        self.len = n + k;
        self.skip -= before;
    }

    // A number in decimal, behind it.
    pub fn number(&mut self, x: u64)
        ensures { Puts self.old (decimal x) self.new }
    {
        let mut digits = [0u8; 20];
        let k = io::decimal(x, &mut digits);
        self.push(&digits[..k]);
    }

    // A word and a number.
    pub fn field(&mut self, word: &[u8], x: u64)
        ensures { Puts self.old (word.now ++ decimal x) self.new }
    {
        self.push(word);
        self.number(x);
    }

    // A word, a number and the end of a line.
    pub fn line(&mut self, word: &[u8], x: u64)
        ensures { Puts self.old (word.now ++ decimal x ++ ascii "\n") self.new }
    {
        self.field(word, x);
        self.push(b"\n");
    }
}
