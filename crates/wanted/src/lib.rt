// A group for wanted openings: the call over a medium, a state and a lent list of records. The list is walked twice: what 19 and 20 ask
// is noted first, and after 6 each record is compared with the index.
#![tactic(auto)]

ghost use Rattle.std.specs.Prelude.{◌≡◌, true, ◌≤◌, length};
ghost use Rattle.lists.specs.Lists.{all};
ghost use Rattle.lists.specs.Needs.{refused, refusal_of};
ghost use Rattle.lists.specs.Cells.{listed};
ghost use Rattle.refusal.specs.Refusal.{number_of};
ghost use Rattle.flash.specs.Medium.{views};
ghost use Rattle.index.specs.Index.{rising};
ghost use Rattle.state.specs.State.{meaning};
ghost use Rattle.records.specs.Records.{wanted_settings};
ghost use Rattle.wanted_group.specs.Group.{is_valve};
ghost use Rattle.wanted_group.specs.Compare.{not_compared, compared_all, so_far, ComesTo};
ghost use Rattle.wanted.specs.Wanted.{reply, reply_by, wanted_of, AnswersWanted};
ghost use Rattle.wanted.specs.InTurn.{record_needs, after_records, beginning, Ready, Begins, group_told};

use lists::Cells;
use records::{Notes, Record};
use refusal::Refusal;
use state::State;
use wanted_group::Compared;

// The answer of `wanted`: 0 and whether at most 96 valves differ, with the group then, or a refusal's number. Beside a refusal `found` is false;
// where there is no group, `group` holds no entry.
// Kept: a number and values beside it, since this is the form of the C interface.
#[repr(C)]
#[derive(Clone, Copy)]
pub struct WantedAnswer {
    pub number: u8,
    pub found: bool,
    pub group: Cells,
}

// A refusal.
fn refused(number: u8) -> WantedAnswer
    ensures { reply_by result ≡ reply (refused number) }
{
    WantedAnswer {
        number,
        found: false,
        group: index::empty(),
    }
}

impl From<Result<Option<Cells>, Refusal>> for WantedAnswer {
    ghost from_gives = { λ a r. reply_by r ≡ reply (group_told a) };

    // The group, or that there is none, or a refusal's number.
    #[tactic(auto, unfolding(crate::specs::Wanted::reply))]
    fn from(answer: Result<Option<Cells>, Refusal>) -> WantedAnswer {
        match answer {
            Ok(Some(group)) => WantedAnswer {
                number: 0,
                found: true,
                group,
            },
            Ok(None) => refused(0),
            Err(refusal) => refused(refusal.number()),
        }
    }
}

// 19 where the valves of the records that were noted do not rise as they must, 20 where the records are too many.
fn check_records(n: Notes) -> Result<(), Refusal>
    ensures { number_of result ≡ refusal_of (record_needs n.rises n.count) }
{
    if !n.rises {
        return Err(Refusal::Record);
    }
    if 192 < n.count {
        return Err(Refusal::Records);
    }
    Ok(())
}

// The present settings of an index, or 6.
fn from_index(m: &[u8], places: &Cells) -> Result<Cells, Refusal>
    requires { (places.now.count ≤ 192) × (rising (listed places.now) ≡ true) × (all is_valve (listed places.now) ≡ true) }
    ensures { Begins (after_records (views m.now) (listed places.now)) result }
{
    let mut words = [0u64; 192];
    if !settings::present(m, &places.keys, &places.vals, places.count, &mut words) {
        return Err(Refusal::Index);
    }
    Ok(Cells {
        count: places.count,
        keys: places.keys,
        vals: words,
    })
}

// 1, 7, 19, 20 and 6, from what was noted of the records, and the present settings.
fn begin(m: &[u8], s: &State, n: Notes) -> Result<Cells, Refusal>
    ensures { Begins (beginning (length m.now) (views m.now) (meaning s.now) n) result }
{
    state::check(m, s)?;
    check_records(n)?;
    from_index(m, &s.index)
}

// The records of a list compared with the present settings, one by one.
fn compare_all(list: &[Record], present: Cells) -> Compared
    requires { Ready present }
    ensures { ComesTo (compared_all (listed present) not_compared (wanted_settings list.now)) result }
{
    let mut c = wanted_group::not_compared();
    for r in list {
        c = wanted_group::compare(present, c, r.valve, r.word);
    }
    c
}

// The group that leads from the present settings to the wanted records, or none where more than 96 valves differ.
fn lead(m: &[u8], s: &State, list: &[Record]) -> Result<Option<Cells>, Refusal>
    ensures { reply (group_told result) ≡ reply (wanted_of (length m.now) (views m.now) (meaning s.now) (wanted_settings list.now)) }
{
    let n = records::gather(list);
    let present = begin(m, s, n)?;
    let c = compare_all(&list[..n.count], present);
    if !c.allowed {
        return Err(Refusal::Entry);
    }
    Ok(wanted_group::group(present, c))
}

// The group that leads from the present settings to the wanted records.
pub fn wanted<'a, 'b>(m: &'a [u8], s: State, list: &'b [Record]) -> WantedAnswer
    ensures { AnswersWanted m.now s list.now result }
{
    WantedAnswer::from(lead(m, &s, list))
}
