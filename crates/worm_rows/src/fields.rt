//! Numbers of a row's fields.

ghost use Rattle.std.specs.Prelude.{◌<◌, IfOk};
ghost use Rattle.worm_text.specs.Reading.{Reads};
ghost use Rattle.worm_rows.specs.Reading.{any_at, below_at, named_at};

use worm_text::{Fields, Why};

/// A number of 32 bits.
pub fn any(fields: &mut Fields<'_>) -> Result<u32, Why>
    ensures { Reads (λ x. x) result fields.new (any_at fields.old) }
{
    fields.number(0, u32::MAX)
}

/// A number below `limit`. `Range` where it is not.
#[tactic(auto, unfolding(crate::specs::Reading::below_at))]
pub fn below(fields: &mut Fields<'_>, limit: u32) -> Result<u32, Why>
    ensures read { Reads (λ x. x) result fields.new (below_at limit fields.old) }
    ensures small { IfOk result (λ n. n < limit) }
{
    let number = any(fields)?;
    if number >= limit {
        return Err(Why::Range);
    }
    Ok(number)
}

/// A word and then a number of 32 bits.
#[tactic(auto, unfolding(crate::specs::Reading::named_at))]
pub fn named(fields: &mut Fields<'_>, word: &[u8]) -> Result<u32, Why>
    ensures { Reads (λ x. x) result fields.new (named_at word.now fields.old) }
{
    fields.word(word)?;
    any(fields)
}
