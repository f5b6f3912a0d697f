ghost use Rattle.std.specs.Prelude.{◌≡◌, length, if◌then◌else◌, Some, None, nat_le};
ghost use Rattle.pen.specs.Pen.{delivered};

// All the bytes from the buffer's start on, if there is room for them, and how many they are; else nothing is written.
pub fn deliver(bytes: &[u8], out: &mut [u8]) -> Option<usize>
    ensures answer { result ≡ (if nat_le (length bytes.now) (length out.old) then Some (length bytes.now) else None) }
    ensures buffer { out.new ≡ delivered bytes.now out.old }
{
    if bytes.len() > out.len() {
        return None;
    }
    let size = bytes.len();
    out[0..size].copy_from_slice(bytes);
    Some(size)
}
