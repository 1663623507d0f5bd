// Answers in the forms that C takes, where the library's own is none: the survey in one list, the place of a page.
#![tactic(auto)]

ghost use Rattle.std.specs.Prelude.{◌≡◌};
ghost use Rattle.c_answers.specs.Forms.{IsPage, joined as joined_of, SurveysInOne};

use state::State;

// A part of the medium.
#[repr(C)]
#[derive(Clone, Copy)]
pub struct VjPart {
    pub offset: usize,
    pub length: usize,
}

// How many counts the survey has: a row of three for each block.
pub const COUNTS: usize = 3 * flash::BLOCKS;

// 0 and the survey, its rows of three counts one after another; or a refusal's number, and every count 0.
// Kept: the C interface; `read::survey` answers a Result.
#[repr(C)]
#[derive(Clone, Copy)]
pub struct VjSurvey {
    pub number: u8,
    pub counts: [u16; COUNTS],
}

// Where page p stands in the medium; nothing at 0 where the medium lacks one of its bytes.
pub fn page_place(m: &[u8], p: usize) -> VjPart
    ensures { IsPage m.now p result }
{
    if p < m.len() / 256 {
        return VjPart {
            offset: 256 * p,
            length: 256,
        };
    }
    VjPart {
        offset: 0,
        length: 0,
    }
}

// Rows of three counts, one row after another.
fn joined(rows: [[u16; 3]; flash::BLOCKS]) -> [u16; COUNTS]
    ensures { result ≡ joined_of rows }
{
    let mut all = [0u16; COUNTS];
    for i in 0..COUNTS {
        all[i] = rows[i / 3][i % 3];
    }
    all
}

// The survey of the blocks, for a lent state.
pub fn survey(m: &[u8], s: &State) -> VjSurvey
    ensures { SurveysInOne m.now s.now result }
{
    let answer = read::survey(m, s);
    VjSurvey {
        number: refusal::number_in(answer),
        counts: joined(answer.unwrap_or([[0u16; 3]; flash::BLOCKS])),
    }
}
