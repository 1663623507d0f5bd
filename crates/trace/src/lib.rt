// A trace of recorded calls: whether it has the form that Paper 13 lays down, and what it says of each call.
#![tactic(auto)]

ghost use Rattle.std.specs.Prelude.{◌≡◌, ◌+◌, ◌-◌, ◌*◌, ◌≤◌, ◌<◌, min, leb, eqb, length, take};
ghost use Rattle.lists.specs.Lists.{all_below};
ghost use Rattle.codec.specs.Codec.{part};
ghost use Rattle.trace.specs.Trace.{call_count, code_at, number_at, has_group, number_ok, pattern_size, data_size, data_start};
ghost use Rattle.trace.specs.Trace.{formats_once, recovers_next, call_ok, has_lists, well_formed, numbers_at};
ghost use Rattle.trace.specs.Read.{Listed, HasCall};
ghost use Rattle.trace.specs.Kinds.{code_of, Decodes, kind_at};

// Codes of calls. Here formatting, with the number of blocks.
pub const FORMAT: u64 = 1;

// An append, with the number of entries.
pub const APPEND: u64 = 2;

// A commit.
pub const COMMIT: u64 = 3;

// A collection, with the block.
pub const COLLECT: u64 = 4;

// A step.
pub const STEP: u64 = 5;

// A step cut short, with the page, or 256 + block.
pub const CUT: u64 = 6;

// A recovery.
pub const RECOVER: u64 = 7;

// A group put into the write buffer, with the number of entries.
pub const BUFFER: u64 = 8;

// A flush.
pub const FLUSH: u64 = 9;

// What a call is. Beside a format a trace has the number of its blocks, beside an append and a buffered group that of the entries, beside a
// collection the block, and beside a cut the page, or 256 + block, that the step cut short touches.
#[derive(Clone, Copy, Debug, PartialEq, Eq)]
pub enum Kind {
    Format,
    Append,
    Commit,
    Collect,
    Step,
    Cut,
    Recover,
    Buffer,
    Flush,
}

// A code that stands for no call.
#[derive(Clone, Copy, Debug, PartialEq, Eq)]
pub struct UnknownCode(pub u64);

impl TryFrom<u64> for Kind {
    type Error = UnknownCode;

    ghost try_from_gives = { Decodes };

    fn try_from(code: u64) -> Result<Self, UnknownCode> {
        match code {
            FORMAT => Ok(Kind::Format),
            APPEND => Ok(Kind::Append),
            COMMIT => Ok(Kind::Commit),
            COLLECT => Ok(Kind::Collect),
            STEP => Ok(Kind::Step),
            CUT => Ok(Kind::Cut),
            RECOVER => Ok(Kind::Recover),
            BUFFER => Ok(Kind::Buffer),
            FLUSH => Ok(Kind::Flush),
            _ => Err(UnknownCode(code)),
        }
    }
}

impl Kind {
    // Whether a group stands beside it.
    #[tactic(auto, unfolding(crate::specs::Trace::has_group))]
    pub fn has_group(self) -> bool
        ensures { result ≡ has_group (code_of self) }
    {
        matches!(self, Kind::Append | Kind::Buffer)
    }

    // Whether this number is allowed beside it.
    #[tactic(auto, unfolding(crate::specs::Trace::has_group, crate::specs::Trace::without_number, crate::specs::Trace::number_ok))]
    fn number_ok(self, n: u64) -> bool
        ensures { result ≡ number_ok (code_of self) n }
    {
        match self {
            Kind::Format => 4 <= n && n <= 16,
            Kind::Cut => n <= 271,
            Kind::Append | Kind::Collect | Kind::Buffer => true,
            Kind::Commit | Kind::Step | Kind::Recover | Kind::Flush => n == 0,
        }
    }

    // Whether its bytes, with this number beside it, are not more than `room`.
    #[tactic(auto, using(crate::proofs::Laws::fit_group), unfolding(crate::specs::Trace::has_group, crate::specs::Trace::data_size))]
    fn fits_in(self, n: u64, room: usize) -> bool
        ensures { result ≡ leb (data_size (code_of self) n) room }
    {
        match self {
            Kind::Append | Kind::Buffer => n <= ((room / 10) as u64),
            Kind::Cut => pattern_size(n) <= room,
            _ => true,
        }
    }

    // How many there are.
    #[tactic(auto, unfolding(crate::specs::Trace::has_group, crate::specs::Trace::data_size))]
    fn size(self, n: u64) -> usize
        requires { data_size (code_of self) n ≤ 65536 }
        ensures { result ≡ data_size (code_of self) n }
    {
        match self {
            Kind::Append | Kind::Buffer => 10 * (n as usize),
            Kind::Cut => pattern_size(n),
            _ => 0,
        }
    }
}

// The most bytes of a trace.
pub const MOST: usize = 65536;

// So many entries of a group are read: one more than an append takes.
pub const READ: usize = 97;

// Whether a group stands beside a call with this code; beside a code that stands for no call there is none.
pub fn has_group(code: u64) -> bool
    ensures { result ≡ has_group code }
{
    match Kind::try_from(code) {
        Ok(kind) => kind.has_group(),
        Err(_) => false,
    }
}

// Whether a trace has its two lists.
fn has_lists(t: &[u8]) -> bool
    ensures { result ≡ has_lists t.now }
{
    let n = t.len();
    if MOST < n || n < 8 {
        return false;
    }
    let calls = codec::le64(t, 0);
    0 < calls && calls <= (((n - 8) / 16) as u64)
}

// The number of calls.
pub fn count(t: &[u8]) -> usize
    requires { Listed t.now }
    ensures { result ≡ call_count t.now }
{
    codec::le64(t, 0) as usize
}

// The code of call i.
pub fn code(t: &[u8], i: usize) -> u64
    requires { Listed t.now × (i < call_count t.now) }
    ensures { result ≡ code_at t.now i }
{
    codec::le64(t, 8 + 8 * i)
}

// What call i is, or its code, if it stands for no call.
pub fn read_kind(t: &[u8], i: usize) -> Result<Kind, UnknownCode>
    requires { Listed t.now × (i < call_count t.now) }
    ensures { Decodes (code_at t.now i) result }
{
    Kind::try_from(code(t, i))
}

// What call i is; in a trace of the form each code stands for a call, and any other is taken for that of a flush.
pub fn kind_at(t: &[u8], i: usize) -> Kind
    requires { Listed t.now × (i < call_count t.now) }
    ensures { result ≡ kind_at t.now i }
{
    read_kind(t, i).unwrap_or(Kind::Flush)
}

// Its number.
pub fn number(t: &[u8], i: usize) -> u64
    requires { Listed t.now × (i < call_count t.now) }
    ensures { result ≡ number_at t.now i }
{
    let calls = count(t);
    codec::le64(t, 8 + 8 * calls + 8 * i)
}

// Whether call i is a format exactly where it is the first.
fn formats_once(t: &[u8], i: usize) -> bool
    requires { Listed t.now × (i < call_count t.now) }
    ensures { result ≡ formats_once t.now i }
{
    (kind_at(t, i) == Kind::Format) == (i == 0)
}

// Whether a recovery comes next where call i is a cut.
fn recovers_next(t: &[u8], i: usize) -> bool
    requires { Listed t.now × (i < call_count t.now) }
    ensures { result ≡ recovers_next t.now i }
{
    if kind_at(t, i) != Kind::Cut {
        return true;
    }
    i + 1 < count(t) && kind_at(t, i + 1) == Kind::Recover
}

// Whether call i is as the form asks.
fn call_ok(t: &[u8], i: usize) -> bool
    requires { Listed t.now × (i < call_count t.now) }
    ensures { result ≡ call_ok t.now i }
{
    let Ok(kind) = read_kind(t, i) else {
        return false;
    };
    if !kind.number_ok(number(t, i)) {
        return false;
    }
    formats_once(t, i) && recovers_next(t, i)
}

// Whether each call is.
fn calls_ok(t: &[u8]) -> bool
    requires { Listed t.now }
    ensures { result ≡ all_below (call_count t.now) (call_ok t.now) }
{
    for i in 0..count(t) {
        if !call_ok(t, i) {
            return false;
        }
    }
    true
}

// The bytes of a cut's pattern.
pub fn pattern_size(n: u64) -> usize
    ensures { result ≡ pattern_size n }
{
    if n < 256 { 256 } else { 4096 }
}

// How many bytes follow the lists for call i.
pub fn data_size(t: &[u8], i: usize) -> usize
    requires { HasCall t.now i }
    ensures { result ≡ data_size (code_at t.now i) (number_at t.now i) }
{
    kind_at(t, i).size(number(t, i))
}

// Whether the bytes of all calls follow the lists, and nothing more.
fn ends_with_data(t: &[u8]) -> bool
    requires { Listed t.now }
    ensures { result ≡ eqb (length t.now) (data_start t.now (call_count t.now)) }
{
    let calls = count(t);
    let mut at = 8 + 16 * calls;
    for i in 0..calls {
        if !kind_at(t, i).fits_in(number(t, i), t.len() - at) {
            return false;
        }
        at += data_size(t, i);
    }
    t.len() == at
}

// Whether a trace has the form; 26 is its negation.
pub fn is_well_formed(t: &[u8]) -> bool
    ensures { result ≡ well_formed t.now }
{
    if !has_lists(t) {
        return false;
    }
    calls_ok(t) && ends_with_data(t)
}

// How many of n entries are read.
pub fn entries(n: u64) -> usize
    ensures { result ≡ min n 97 }
{
    n.min(READ as u64) as usize
}

// The keys of n entries, from byte k on.
// Kept: as `words`.
pub fn keys(t: &[u8], k: usize, n: usize) -> [u16; 97]
    requires { (n ≤ 97) × (k + 2 * n ≤ length t.now) }
    ensures { (length result ≡ 97) × (take n result ≡ numbers_at 2 n k t.now) }
{
    let mut all = [0u16; 97];
    for i in 0..n {
        all[i] = codec::le16(t, k + 2 * i);
    }
    all
}

// The words of n entries, from byte k on.
// Kept: a twin of the loop over keys, since one loop over a closure that reads a number would be no shorter.
pub fn words(t: &[u8], k: usize, n: usize) -> [u64; 97]
    requires { (n ≤ 97) × (k + 8 * n ≤ length t.now) }
    ensures { (length result ≡ 97) × (take n result ≡ numbers_at 8 n k t.now) }
{
    let mut all = [0u64; 97];
    for i in 0..n {
        all[i] = codec::le64(t, k + 8 * i);
    }
    all
}

// The pattern of a cut whose bytes start at k: a part of the trace.
pub fn pattern(t: &[u8], k: usize, n: u64) -> &[u8]
    requires { k + pattern_size n ≤ length t.now }
    ensures { result.now ≡ part k (pattern_size n) t.now }
{
    let e = k + pattern_size(n);
    &t[k..e]
}
