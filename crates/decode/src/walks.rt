use grammar::{PIECE_ALLOWANCE, STEP_ALLOWANCE};
use wire::Command;

// How far a reading has come: the steps that wait for their child or range, whether the last piece is a text, and how many pieces may still
// come.
#[derive(Clone, Copy)]
pub(crate) struct Walk {
    waiting: usize,
    text: bool,
    room: usize,
}

impl Walk {
    ghost use Rattle.std.specs.Prelude.{◌≡◌};
    ghost use Rattle.decode.specs.Walking.{start, one_piece, walked, walked_inside, may_end};

    pub(crate) fn start() -> Walk
        ensures { result ≡ start }
    {
        Walk {
            waiting: 0,
            text: false,
            room: PIECE_ALLOWANCE,
        }
    }

    fn one_piece(self, text: bool) -> Option<Walk>
        ensures { result ≡ one_piece self text }
    {
        let room = self.room.checked_sub(1)?;
        Some(Walk {
            waiting: 0,
            text,
            room,
        })
    }

    // The reading with one more command. Whether a range's separators are allowed is not asked here.
    pub(crate) fn with(self, command: Command) -> Option<Walk>
        ensures { result ≡ walked self command }
    {
        match command {
            Command::End | Command::Power { .. } => None,
            Command::Byte(_) | Command::Capture(_) if self.waiting != 0 => None,
            Command::Byte(_) if self.text => Some(self),
            Command::Byte(_) => self.one_piece(true),
            Command::Step(_) if self.waiting >= STEP_ALLOWANCE => None,
            Command::Step(_) => Some(Walk {
                waiting: self.waiting + 1,
                text: false,
                room: self.room,
            }),
            Command::Child { .. } | Command::Range { .. } | Command::Capture(_) => {
                self.one_piece(false)
            }
        }
    }

    // The reading of a separator with one more command: behind a text's `)` no `$` may stand, and a range stands nowhere.
    pub(crate) fn with_inside(self, closed: bool, command: Command) -> Option<Walk>
        ensures { result ≡ walked_inside self closed command }
    {
        match command {
            Command::Range { .. } => None,
            Command::Byte(b) if closed && b == b'$' => None,
            Command::Byte(_) => self.with(command),
            _ if closed => None,
            _ => self.with(command),
        }
    }

    // Whether a reading may end here: no step waits, and in a separator no `$` of a suffix stands behind a text's `)`.
    pub(crate) fn may_end(self, closed: bool, suffixed: bool) -> bool
        ensures { result ≡ may_end self closed suffixed }
    {
        self.waiting == 0 && !(closed && suffixed)
    }
}
