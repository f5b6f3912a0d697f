ghost use Rattle.std.specs.Prelude.{◌≡◌};
ghost use Rattle.terms.specs.Source.{Source, name_length, name_byte, child_count, child_at};

// The most bytes that a name may have.
pub const LONGEST_NAME: usize = 255;

// A source of terms. What is asked beyond the end is answered by `None`.
pub trait TermSource {
    // How many terms there are, and of each its name and the numbers of its children.
    ghost view: { Self → Source };

    fn count(&self) -> usize
        ensures { result ≡ (view self.now).count };

    fn name_len(&self, t: usize) -> Option<usize>
        ensures { result ≡ name_length (view self.now) t };

    fn name_byte(&self, t: usize, i: usize) -> Option<u8>
        ensures { result ≡ name_byte (view self.now) t i };

    fn child_count(&self, t: usize) -> Option<usize>
        ensures { result ≡ child_count (view self.now) t };

    fn child(&self, t: usize, i: usize) -> Option<usize>
        ensures { result ≡ child_at (view self.now) t i };
}
