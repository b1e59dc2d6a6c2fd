//! The caller's buffer.
ghost use Rattle.std.specs.Prelude.{◌≡◌, ◌≤◌, length};
ghost use Rattle.geoarrow_c.specs.Buffer.{Fills, Lacks};

use crate::status::{DONE, SHORT};

/// Writes a text to the front of a buffer, if it has room, and its length in either case. Returns
/// whether the buffer has room.
pub(crate) fn fill(text: &[u8], out: &mut [u8], len: &mut usize) -> u8
    ensures done { result ≡ 0 → Fills text.now out.old out.new }
    ensures short { result ≡ 1 → Lacks text.now out.old out.new }
    ensures len { length text.now ≡ len.new }
    ensures status { result ≤ 1 }
{
    *len = text.len();
    if out.len() < text.len() {
        return SHORT;
    }
    let (front, _) = out.split_at_mut(text.len());
    front.copy_from_slice(text);
    DONE
}
