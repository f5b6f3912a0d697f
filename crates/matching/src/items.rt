// The bytes that an item may take.
#[derive(Clone, Copy, Debug, PartialEq, Eq)]
pub enum Set {
    // every byte but the line feed
    Dot,
    Byte(u8),
}

// How many bytes an item may take.
#[derive(Clone, Copy, Debug, PartialEq, Eq)]
pub enum Times {
    Once,
    // `?`
    Maybe,
    // `+`
    Several,
    // `*`
    Many,
}

// A part of a pattern: it takes bytes, or marks where a group opens or closes.
#[derive(Clone, Copy, Debug, PartialEq, Eq)]
pub enum Item {
    Take(Set, Times),
    Open(u8),
    Close(u8),
}
