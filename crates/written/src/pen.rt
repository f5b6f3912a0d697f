ghost use Rattle.std.specs.Prelude.{[], ◌∷◌, decimal};
ghost use Rattle.grammar.specs.Numbers.{numeral};
ghost use Rattle.written.specs.Pens.{Writes};

// What is written into a buffer from its start, and the byte that was written last. Behind the end of the buffer nothing is written, and
// bytes are only counted.
#[derive(Drop)]
pub(crate) struct Pen<'a> {
    pub(crate) out: &'a mut [u8],
    pub(crate) at: usize,
    pub(crate) last: u8,
}

impl<'a> Pen<'a> {
    pub(crate) fn put(&mut self, b: u8)
        ensures { Writes (b ∷ []) self.old self.new }
    {
        if self.at < self.out.len() {
            self.out[self.at] = b;
        }
        self.at = self.at.saturating_add(1);
        self.last = b;
    }

    pub(crate) fn put_all(&mut self, bytes: &[u8])
        ensures { Writes bytes.now self.old self.new }
    {
        for b in bytes {
            self.put(*b);
        }
    }

    // Writes the decimal digits of a number: those of its tens, and the last. Not by `write!`, of which std says nothing where the writer
    // answers an error, so that the bytes written would not be known.
    pub(crate) fn put_decimal(&mut self, n: u32)
        ensures { Writes (decimal n) self.old self.new }
    {
        if n >= 10 {
            self.put_decimal(n / 10);
        }
        self.put(b'0' + (n % 10) as u8);
    }

    // Writes a number of 32 bits that is meant in two's complement.
    pub(crate) fn put_numeral(&mut self, n: u32)
        ensures { Writes (numeral n) self.old self.new }
    {
        let number = n.cast_signed();
        if number < 0 {
            self.put(b'-');
        }
        self.put_decimal(number.unsigned_abs());
    }
}
