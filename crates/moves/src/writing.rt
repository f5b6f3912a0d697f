ghost use Rattle.std.specs.Prelude.{◌≤◌, length};

use crate::visits::visited;
use lines::{LineError, Printed};

// Writes a line into a buffer, and counts the visits.
// It holds the buffer itself, and no `pen::Pen`: of a reference in a struct within a struct a proof does not learn what it leaves behind.
#[derive(Drop)]
pub struct LinePen<'a> {
    out: &'a mut [u8],
    at: usize,
    visits: usize,
    pub ghost within: { at ≤ length out.now },
}

impl<'a> LinePen<'a> {
    ghost use Rattle.std.specs.Prelude.{◌≡◌, ℕ, [], ◌∷◌, OnOk};
    ghost use Rattle.lines.specs.Cut.{depth_limit};
    ghost use Rattle.lines.specs.Events.{visit, byte, bytes};
    ghost use Rattle.moves.specs.Run.{state, fresh, resumed, outcome, run};

    // A pen at the start of a buffer, before the first visit.
    pub fn new(out: &'a mut [u8]) -> LinePen<'a>
        ensures same { result.out.ghost_name ≡ out.entry.ghost_name }
        ensures state { state result ≡ fresh out.entry.ghost_name out.old }
    {
        LinePen {
            out,
            at: 0,
            visits: 0,
        }
    }

    // A pen behind the bytes and the visits of a print that goes on; at the buffer's end, if it has fewer bytes.
    pub fn resume(out: &'a mut [u8], from: Printed) -> LinePen<'a>
        ensures same { result.out.ghost_name ≡ out.entry.ghost_name }
        ensures state { state result ≡ resumed out.entry.ghost_name from.count from.visits out.old }
    {
        let at = from.count.min(out.len());
        LinePen {
            out,
            at,
            visits: from.visits,
        }
    }

    // How many visits there were, and how many bytes are written.
    pub fn printed(&self) -> Printed
        ensures visits { result.visits ≡ (state self.now).visits }
        ensures count { result.count ≡ length (state self.now).page.written }
    {
        Printed {
            visits: self.visits,
            count: self.at,
        }
    }

    // Writes a byte behind the others.
    pub fn put(&mut self, b: u8) -> Result<(), LineError>
        ensures { outcome self.new result ≡ run (byte b ∷ []) (state self.old) }
    {
        if self.at >= self.out.len() {
            return Err(LineError::OutputFull);
        }
        self.out[self.at] = b;
        self.at += 1;
        Ok(())
    }

    // Writes bytes one by one, as far as there is room.
    pub fn put_all(&mut self, text: &[u8]) -> Result<(), LineError>
        ensures { outcome self.new result ≡ run (bytes text.now) (state self.old) }
    {
        for b in text {
            self.put(*b)?;
        }
        Ok(())
    }

    // Counts a visit at a depth, whatever the term.
    pub fn enter(&mut self, depth: usize) -> Result<(), LineError>
        ensures within { OnOk result (depth ≤ depth_limit) }
        ensures counted { (t : ℕ) → outcome self.new result ≡ run (visit t depth ∷ []) (state self.old) }
    {
        self.visits = visited(self.visits, depth)?;
        Ok(())
    }
}
