// Bytes written to a lent buffer, part by part: each function writes from a place on, leaves the rest as it was, and answers the
// place after what it wrote. The answer line and the training text are written so.
#![tactic(auto)]

ghost use Rattle.std.specs.Prelude.{[], ◌∷◌, ◌≤◌, length};
ghost use Rattle.std.proofs.Math.Seq.{slice};
ghost use Rattle.byte_buffers.specs.Stored.{RoomFor, Put};

pub fn put_byte(buffer: &mut [u8], at: usize, byte: u8) -> usize
    requires { RoomFor (byte ∷ []) buffer.old at }
    ensures { Put (byte ∷ []) buffer.old at result buffer.new }
{
    buffer[at] = byte;
    at + 1
}

// The bytes from one place of theirs up to another. As a loop: for the library's copy the archive would need a `memmove` from outside.
pub fn put_bytes(buffer: &mut [u8], at: usize, bytes: &[u8], from: usize, to: usize) -> usize
    requires from_le_to { (from ≤ to) × (to ≤ length bytes.now) }
    requires room_for { RoomFor (slice from to bytes.now) buffer.old at }
    ensures { Put (slice from to bytes.now) buffer.old at result buffer.new }
{
    let mut k = at;
    for i in from..to {
        buffer[k] = bytes[i];
        k += 1;
    }
    k
}
