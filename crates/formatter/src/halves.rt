ghost use Rattle.std.specs.Prelude.{◌≡◌, ◌++◌, length, drop, if◌then◌else◌, Some, None, nat_le};
ghost use Rattle.grammar.specs.Marks.{halve as halved};

use controls::Halved;

// Writes the text with its pairs of `mark` halved, and answers how many bytes that are. Where the text itself
// would not fit, nothing is written.
pub fn halve(text: &[u8], mark: u8, out: &mut [u8]) -> Option<usize>
    ensures size { result ≡ (if nat_le (length text.now) (length out.old) then Some (length (halved mark text.now)) else None) }
    ensures bytes { out.new ≡ (if nat_le (length text.now) (length out.old) then halved mark text.now ++ drop (length (halved mark text.now)) out.old else out.old) }
{
    if text.len() > out.len() {
        return None;
    }
    // by number: of bytes that are written through `iter_mut` a proof knows nothing, and the number is the answer
    let mut size = 0;
    for b in Halved::of(text, mark) {
        out[size] = b;
        size += 1;
    }
    Some(size)
}
