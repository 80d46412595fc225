//! Reading a text to its end, under limits.

ghost use Rattle.std.specs.Prelude.{◌≡◌, ◌++◌, IfErr, IfOk, IfSome, IsSomeAnd};
ghost use Rattle.worm_text.specs.Whole.{IsWhole, ReadsNot};

use std::alloc::Global;
use std::io::Read;

const MOST_READS: u32 = 10_000_000;

/// Why a text was not read to its end.
#[derive(Clone, Copy, PartialEq, Eq, Debug)]
pub enum ReadFault {
    /// A read failed, or a limit was passed.
    Unreadable,
    /// There was no memory for the text, which could be read to its end.
    NoMemory,
}

/// Without memory for the bytes it is none, and stays so: the reading goes on, to see whether the text has an end.
fn lengthened(text: Option<Vec<u8>>, bytes: &[u8]) -> Option<Vec<u8>>
    ensures { IfSome result (λ longer. IsSomeAnd text (λ short. longer.items ≡ short.items ++ bytes.now)) }
{
    let mut text = text?;
    match text.extend_from_slice(bytes) {
        Ok(()) => Some(text),
        Err(_) => None,
    }
}

/// The bytes that the reader gives up to its end. `Unreadable` where a read fails, where there are more than
/// `most_bytes`, or where no end comes within 10,000,000 reads; else `NoMemory` where there is none for the bytes.
pub fn read_text<R: Read>(
    alloc: Global,
    reader: &mut R,
    most_bytes: usize,
) -> Result<Vec<u8>, ReadFault>
    ensures ok { IfOk result (λ text. IsWhole most_bytes (R.remaining reader.old) (R.remaining reader.new) text.items) }
    ensures err { IfErr result (ReadsNot most_bytes (R.remaining reader.old) (R.remaining reader.new)) }
{
    let mut text = Some(Vec::new(alloc));
    let mut length = 0;
    let mut chunk = [0u8; 4096];
    for _ in 0..MOST_READS {
        let Ok(count) = reader.read(&mut chunk) else {
            return Err(ReadFault::Unreadable);
        };
        if count == 0 {
            return text.ok_or(ReadFault::NoMemory);
        }
        if count > most_bytes - length {
            return Err(ReadFault::Unreadable);
        }
        length += count;
        text = lengthened(text, &chunk[..count]);
    }
    Err(ReadFault::Unreadable)
}
