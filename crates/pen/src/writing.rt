ghost use Rattle.std.specs.Prelude.{◌≤◌, length};

// The buffer has no room for the byte that is due.
#[derive(Clone, Copy, Debug, PartialEq, Eq)]
pub struct Full;

// Writes bytes into a buffer, one behind the other.
#[derive(Drop)]
pub struct Pen<'a> {
    out: &'a mut [u8],
    at: usize,
    pub ghost within: { at ≤ length out.now },
}

impl<'a> Pen<'a> {
    ghost use Rattle.std.specs.Prelude.{◌≡◌, [], ◌∷◌};
    ghost use Rattle.pen.specs.Pen.{page, blank, behind, Wrote};

    // A pen at the start of a buffer.
    pub fn new(out: &'a mut [u8]) -> Pen<'a>
        ensures same { result.out.ghost_name ≡ out.entry.ghost_name }
        ensures page { page result ≡ blank out.old }
    {
        Pen { out, at: 0 }
    }

    // A pen behind the first `at` bytes of a buffer; at its end, if it has fewer.
    pub fn resume(out: &'a mut [u8], at: usize) -> Pen<'a>
        ensures same { result.out.ghost_name ≡ out.entry.ghost_name }
        ensures page { page result ≡ behind at out.old }
    {
        let at = at.min(out.len());
        Pen { out, at }
    }

    // Writes a byte behind the others.
    pub fn put(&mut self, b: u8) -> Result<(), Full>
        ensures { Wrote self.old self.new (b ∷ []) result }
    {
        if self.at >= self.out.len() {
            return Err(Full);
        }
        self.out[self.at] = b;
        self.at += 1;
        Ok(())
    }

    // Writes two bytes behind the others, or as many as there is room for. Both go by one look at the place.
    pub fn put_both(&mut self, first: u8, second: u8) -> Result<(), Full>
        ensures { Wrote self.old self.new (first ∷ second ∷ []) result }
    {
        let at = self.at;
        let end = at + 2;
        if end > self.out.len() {
            self.put(first)?;
            return self.put(second);
        }
        self.out[at] = first;
        self.out[at + 1] = second;
        self.at = end;
        Ok(())
    }

    // Writes bytes behind the others, one by one, as far as there is room.
    pub fn put_all(&mut self, bytes: &[u8]) -> Result<(), Full>
        ensures { Wrote self.old self.new bytes.now result }
    {
        for b in bytes {
            self.put(*b)?;
        }
        Ok(())
    }

    // What is written.
    pub fn written(&self) -> &[u8]
        ensures { result.now ≡ (page self.now).written }
    {
        &self.out[..self.at]
    }
}
