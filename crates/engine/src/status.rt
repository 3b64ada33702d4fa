// The status picture of a set: for each line its kind, number, standing and how often it acted.
ghost use Rattle.std.specs.Prelude.{◌≡◌, ◌≤◌};
ghost use Rattle.tokens.specs.Token.{max_lines};
ghost use Rattle.engine.specs.Status.{standing_of, status_lines, status_of};

use crate::set::Lines;
use crate::sound::lines_with;
use crate::state::State;
use checking::Line;
use tokens::token::{LINES, SIZE};

#[derive(Clone, Copy, Default)]
pub enum Standing {
    Locked,
    Cancelled,
    #[default]
    Waiting,
}

// A line's row in the picture.
#[derive(Clone, Copy, Default)]
pub struct LineStatus {
    pub ids: bool,
    pub number: u8,
    pub standing: Standing,
    pub acts: u32,
}

// The rows of the first `count` places, by rising number. No heap: 32 places and how many are in use.
#[derive(Clone, Copy)]
pub struct Status {
    pub count: usize,
    pub lines: [LineStatus; LINES],
}

#[tactic(auto, unfolding(crate::specs::Status::standing_of))]
fn standing_of(cancelled: bool, locked: bool) -> Standing
    ensures { result ≡ standing_of cancelled locked }
{
    if cancelled {
        return Standing::Cancelled;
    }
    if locked {
        return Standing::Locked;
    }
    Standing::Waiting
}

// The row of a line that is so cancelled, so locked and acted so often.
fn line_status(line: &Line, cancelled: bool, locked: bool, acts: u32) -> LineStatus
    ensures { result ≡ record { ids = line.now.ids; number = line.now.number; standing = standing_of cancelled locked; acts = acts } }
{
    LineStatus {
        ids: line.ids,
        number: line.number,
        standing: standing_of(cancelled, locked),
        acts,
    }
}

#[tactic(auto, unfolding(crate::specs::Status::status_lines, crate::specs::Status::line_status))]
fn status_lines(lines: &Lines, state: &State) -> [LineStatus; LINES]
    requires { lines.now.count ≤ max_lines }
    ensures { result ≡ status_lines lines.now.items state.now lines.now.count }
{
    let mut rows = [LineStatus::default(); LINES];
    for k in 0..lines.count {
        rows[k] = line_status(
            &lines.items[k],
            state.cancelled[k],
            state.locked[k],
            state.acts[k],
        );
    }
    rows
}

// The picture; 22 where the set or the state is not sound.
#[tactic(auto, unfolding(crate::specs::Status::status_of))]
pub fn status_of(set: &[u32; SIZE], state: State) -> Result<Status, u8>
    ensures { result ≡ status_of set.now state }
{
    let lines = lines_with(set, &state)?;
    Ok(Status {
        count: lines.count,
        lines: status_lines(&lines, &state),
    })
}
