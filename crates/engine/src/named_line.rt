// The line that a call of the host names: found by its number in a sound set with a sound state, and not cancelled.
ghost use Rattle.std.specs.Prelude.{◌≡◌, ◌<◌, IfOk};
ghost use Rattle.tokens.specs.Token.{max_lines};
ghost use Rattle.engine.specs.NamedLine.{found};

use crate::set::rank_in;
use crate::sound::lines_with;
use crate::state::State;
use tokens::token::SIZE;
use values::codes::UNKNOWN_LINE;

// The rank of the line with the number n, in a sound set with a sound state: 22 where one of them is not, 40 where the line is not in the set or cancelled.
#[tactic(auto, unfolding(crate::specs::NamedLine::found, crate::specs::NamedLine::found_at))]
pub fn find(set: &[u32; SIZE], state: &State, n: u32) -> Result<usize, u8>
    ensures value { result ≡ found set.now state.now n }
    ensures inside { IfOk result (λ k. k < max_lines) }
{
    let lines = lines_with(set, state)?;
    let k = rank_in(&lines.numbers, n);
    if lines.count <= k {
        return Err(UNKNOWN_LINE);
    }
    if state.cancelled[k] {
        return Err(UNKNOWN_LINE);
    }
    Ok(k)
}
