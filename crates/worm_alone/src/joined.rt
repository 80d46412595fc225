//! One input that holds both texts.

ghost use Rattle.std.specs.Prelude.{◌≡◌, ◌≤◌, length, ℕ};
ghost use Rattle.worm_alone.specs.Joined.{IsCut};

/// The number of bytes up to and with the first finished line that is exactly `end`, or of all bytes.
pub fn network_end(text: &[u8]) -> usize
    ensures within { result ≤ length text.now }
    ensures cut { IsCut text.now result }
    ensures only { (at : ℕ) → IsCut text.now at → at ≡ result }
{
    let mut start = 0;
    for (at, byte) in text.iter().enumerate() {
        if *byte == b'\n' {
            if &text[start..at] == b"end".as_slice() {
                return at + 1;
            }
            start = at + 1;
        }
    }
    text.len()
}
