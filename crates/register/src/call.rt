// A call on a book. A call that writes has a buffer of `room` bytes.
#[derive(Clone, Copy)]
pub enum Call<'a> {
    Define {
        matcher: &'a [u8],
        template: &'a [u8],
    },
    Withdraw {
        matcher: &'a [u8],
    },
    NewFallback {
        template: &'a [u8],
    },
    LookUp {
        name: &'a [u8],
        count: usize,
        room: usize,
    },
    ReadBack {
        matcher: &'a [u8],
        room: usize,
    },
    Print {
        term: usize,
        room: usize,
    },
}
