use grammar::{BindPowerPair, ChildIndex};

// A piece of a template, with the parts of the template that it was typed as: text and separators with their marks
// still doubled, a path with its `#`, its steps and its index.
#[derive(Clone, Copy)]
pub enum SubFormatterConst<'a> {
    String(&'a [u8]),
    Single {
        path: &'a [u8],
        index: ChildIndex,
        bind_power: BindPowerPair,
    },
    Repeat {
        path: &'a [u8],
        from: ChildIndex,
        to: ChildIndex,
        left: u32,
        middle: BindPowerPair,
        right: u32,
        left_sep: &'a [u8],
        middle_sep: &'a [u8],
        right_sep: &'a [u8],
    },
    Capture(u32),
}
