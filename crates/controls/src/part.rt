ghost use Rattle.std.specs.Prelude.{◌+◌, ◌^◌, ◌<◌, length};

// A part of a template, and the place where it stands there.
#[derive(Clone, Copy)]
pub(crate) struct Part<'a> {
    pub(crate) text: &'a [u8],
    pub(crate) place: usize,
    ghost within: { place + length text.now < 2 ^ 64 },
}

mod sides;
