// Why a call is refused, one condition of the papers each, with its number.
#![tactic(auto)]

ghost use Rattle.std.specs.Prelude.{◌≡◌, ◌≤◌, ◌<◌};
ghost use Rattle.refusal.specs.Refusal.{number, number_of};

// A condition that does not hold. A call gives the first of its conditions, in the order that the papers lay down for it.
#[derive(Clone, Copy, Debug, PartialEq, Eq)]
pub enum Refusal {
    // 1: the medium's length is not 4 to 256 times 4096 bytes.
    Length,
    // 2: a whole page breaks the page rules.
    PageRules,
    // 3: two whole pages share a serial.
    SameSerial,
    // 4: there is no complete base.
    NoBase,
    // 5: from the base on, the serials have a gap or a page is out of its group.
    Sequence,
    // 6: the base's valves do not rise, over 192 valves are set, or an address of the index lacks its entry.
    Index,
    // 7: the state does not fit the medium, or the buffer cannot be lent beside it.
    State,
    // 8: an operation is pending where one is begun.
    Pending,
    // 9: none is pending where a step is due.
    NonePending,
    // 10: the lists of a group differ in length, or have no entry, or over 96; or the buffer is empty where a flush is begun.
    Lists,
    // 11: a removal's word is not 0, or valve 0 is set.
    Entry,
    // 12: more than 192 valves would be set.
    Valves,
    // 13: too few pages are available.
    Pages,
    // 14: too few serials are left.
    Serials,
    // 15: the block is not collectible, or there is no such block.
    Block,
    // 16: the page due is not there, or is not clean.
    PageDue,
    // 17: a lent list is too short.
    ShortList,
    // 18: the valve is not set.
    NotSet,
    // 19: the wanted valves do not rise strictly below 32768.
    Record,
    // 20: there are more than 192 wanted records.
    Records,
    // 21: the ends of the span are out of order or past the log.
    Span,
    // 22: more than 192 valves are touched in the span.
    Touched,
    // 23: the group has more entries than the buffer has places left.
    BufferFull,
    // 24: the buffer holds a group where an append, a commit or a collection is begun.
    BufferHolds,
    // 25: the lent list is too short for all groups that mattered.
    ShortGroups,
    // 26: a trace breaks its form.
    Trace,
    // 27: a recorded cut meets no step, or one of another page or block.
    Cut,
    // 28: the medium shows an earlier moment than the mark filed last.
    Earlier,
    // 29: the mark filed last is not of this medium, or the medium was formatted since.
    Other,
}

impl Refusal {
    // The number of the condition.
    pub fn number(self) -> u8
        ensures { result ≡ number self }
    {
        match self {
            Refusal::Length => 1,
            Refusal::PageRules => 2,
            Refusal::SameSerial => 3,
            Refusal::NoBase => 4,
            Refusal::Sequence => 5,
            Refusal::Index => 6,
            Refusal::State => 7,
            Refusal::Pending => 8,
            Refusal::NonePending => 9,
            Refusal::Lists => 10,
            Refusal::Entry => 11,
            Refusal::Valves => 12,
            Refusal::Pages => 13,
            Refusal::Serials => 14,
            Refusal::Block => 15,
            Refusal::PageDue => 16,
            Refusal::ShortList => 17,
            Refusal::NotSet => 18,
            Refusal::Record => 19,
            Refusal::Records => 20,
            Refusal::Span => 21,
            Refusal::Touched => 22,
            Refusal::BufferFull => 23,
            Refusal::BufferHolds => 24,
            Refusal::ShortGroups => 25,
            Refusal::Trace => 26,
            Refusal::Cut => 27,
            Refusal::Earlier => 28,
            Refusal::Other => 29,
        }
    }
}

// The number in an answer for C: the refusal's, or 0 where nothing is refused.
pub fn number_in<T: Copy>(answer: Result<T, Refusal>) -> u8
    ensures { result ≡ number_of answer }
{
    match answer {
        Ok(_) => 0,
        Err(refusal) => refusal.number(),
    }
}
