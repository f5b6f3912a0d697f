// The records are those of include/fulgavod.h: C has no Option and no bool of ours, so 1 and 0 say whether something is there.

// What is refused, in plain numbers: all of them 0 where nothing is.
#[repr(C)]
#[derive(Clone, Copy, Default)]
pub struct Fault {
    pub number: u32,
    // 1 template, 2 matcher, 3 pattern, 4 book, 5 print
    pub layer: u32,
    // for 3 and 4 the first byte of the mark that is missing or too many
    pub mark: u32,
    // of a separator's fault: 1 left, 2 middle, 3 right
    pub side: u32,
    // of a separator's fault: the repeat's number among the pieces
    pub piece: usize,
    pub place: usize,
    pub length: usize,
}

// A matcher: where its data stands in the text, whether that is a pattern, and the child count, if one is given.
#[repr(C)]
#[derive(Clone, Copy, Default)]
pub struct Matcher {
    pub fault: Fault,
    pub place: usize,
    pub length: usize,
    pub pattern: u32,
    pub counted: u32,
    pub children: u32,
}

// A template: its powers, where its pieces stand, how many they are, and the greatest capture, if there is one.
#[repr(C)]
#[derive(Clone, Copy, Default)]
pub struct Template {
    pub fault: Fault,
    pub place: usize,
    pub length: usize,
    pub pieces: usize,
    pub left: u32,
    pub right: u32,
    pub captures: u32,
    pub capture: u32,
}

// How many bytes were written.
#[repr(C)]
#[derive(Clone, Copy, Default)]
pub struct Written {
    pub fault: Fault,
    pub length: usize,
}

// The group count of a pattern, the whole name among them.
#[repr(C)]
#[derive(Clone, Copy, Default)]
pub struct Groups {
    pub fault: Fault,
    pub count: usize,
}

// Whether a name matches, and how many parts were written.
#[repr(C)]
#[derive(Clone, Copy, Default)]
pub struct Matched {
    pub fault: Fault,
    pub matches: u32,
    pub count: usize,
}

// The part of a name that a group took, if it took one.
#[repr(C)]
#[derive(Clone, Copy, Default)]
pub struct Part {
    pub taken: u32,
    pub from: usize,
    pub to: usize,
}
