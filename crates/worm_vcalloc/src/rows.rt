//! Arrays by port and channel.

ghost use Rattle.std.specs.Prelude.{◌≡◌, ◌<◌, length, None, slice_index_or};

pub(crate) fn entry<T: Copy>(row: &[Option<T>; 8], channel: u8) -> Option<T>
    requires { channel < 8 }
    ensures value { result ≡ slice_index_or row.now channel None }
    ensures long { length row.now ≡ 8 }
{
    row[channel as usize]
}
