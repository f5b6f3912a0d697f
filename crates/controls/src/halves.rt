ghost use Rattle.std.specs.Prelude.{◌≡◌};
ghost use Rattle.std.specs.Iterator.{YieldsFirst, item_count};
ghost use Rattle.grammar.specs.Marks.{halve};
ghost use Rattle.controls.specs.Halves.{bytes_left};

// The bytes of a text, each pair of a mark as one mark.
#[derive(Clone, Copy)]
pub struct Halved<'a> {
    text: &'a [u8],
    mark: u8,
}

impl<'a> Halved<'a> {
    // A text whose pairs of `mark` are halved.
    pub fn of(text: &'a [u8], mark: u8) -> Halved<'a>
        ensures { bytes_left result ≡ halve mark text.now }
    {
        Halved { text, mark }
    }
}

impl<'a> Iterator for Halved<'a> {
    type Item = u8;

    ghost next_gives = { YieldsFirst bytes_left };

    ghost remaining = { item_count bytes_left };

    fn next(&mut self) -> Option<u8> {
        let (first, rest) = self.text.split_first()?;
        self.text = match rest {
            _ if *first != self.mark => rest,
            [second, behind @ ..] if *second == self.mark => behind,
            _ => rest,
        };
        Some(*first)
    }
}
