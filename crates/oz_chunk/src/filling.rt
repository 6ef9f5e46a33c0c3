//! What a slot is filled with.

ghost use Rattle.std.specs.Prelude.{◌≡◌, ◌-◌, ◌≤◌, ◌++◌, length, vec_len, replicate};

/// Puts a chunk at the beginning of a buffer, and zeros behind it.
pub(crate) fn fill(buffer: &mut Vec<u8>, chunk: &[u8])
    requires { length chunk.now ≤ vec_len buffer.old }
    ensures { buffer.new.items ≡ chunk.now ++ replicate (vec_len buffer.old - length chunk.now) 0 }
{
    let (front, back) = buffer.split_at_mut(chunk.len());
    front.copy_from_slice(chunk);
    back.fill(0);
}
