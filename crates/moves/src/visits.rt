ghost use Rattle.std.specs.Prelude.{◌≡◌, ℕ, ◌≤◌, List, [], ◌∷◌, OnOk};
ghost use Rattle.lines.specs.Cut.{depth_limit};
ghost use Rattle.lines.specs.Events.{visit};
ghost use Rattle.moves.specs.Run.{standing, visited, ended, run};

use lines::{LineError, Printed};

// The visits of one print.
const VISIT_LIMIT: usize = 65535;

// How deep visits may be nested.
const DEPTH_LIMIT: usize = 128;

// How many visits there are with one more at a depth.
pub(crate) fn visited(visits: usize, depth: usize) -> Result<usize, LineError>
    ensures within { OnOk result (depth ≤ depth_limit) }
    ensures value { result ≡ visited visits depth }
{
    if visits >= VISIT_LIMIT {
        return Err(LineError::TooManyVisits);
    }
    if depth > DEPTH_LIMIT {
        return Err(LineError::TooDeep);
    }
    Ok(visits + 1)
}

// Counts a visit at a depth, whatever the term and the buffer.
pub fn enter(printed: &mut Printed, depth: usize) -> Result<(), LineError>
    ensures within { OnOk result (depth ≤ depth_limit) }
    ensures count { printed.new.count ≡ printed.old.count }
    ensures counted { (t b : ℕ) (l : List ℕ) → ended (standing b l printed.new) result ≡ run (visit t depth ∷ []) (standing b l printed.old) }
{
    printed.visits = visited(printed.visits, depth)?;
    Ok(())
}
