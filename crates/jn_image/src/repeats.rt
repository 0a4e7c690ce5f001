//! Values that stand twice in a list.
ghost use Rattle.std.specs.Prelude.{◌≡◌, ◌+◌, ℕ, List, get_or, Option as Maybe, None as Nothing, IfOk};
ghost use Rattle.jn_image.specs.Repeats.{StandsOnce, Finds, AreNoted, lesser};

use std::alloc::{AllocError, Global};
use std::collections::BTreeSet;

/// The least value that stands at two places.
pub(crate) fn least_repeated(
    alloc: Global,
    values: &[Option<u32>],
) -> Result<Option<u32>, AllocError>
    ensures { IfOk result (λ r. Finds (StandsOnce values.now) r) }
{
    let mut seen = BTreeSet::new(alloc);
    let mut least = None;
    for value in values {
        least = note(&mut seen, least, *value)?;
    }
    Ok(least)
}

/// Notes a value, and gives the least that was noted twice.
fn note(
    seen: &mut BTreeSet<u32>,
    least: Option<u32>,
    value: Option<u32>,
) -> Result<Option<u32>, AllocError>
    ensures { IfOk result (λ r. (xs : List (Maybe ℕ)) (n : ℕ) → get_or xs n Nothing ≡ value → AreNoted xs n seen.old least → AreNoted xs (n + 1) seen.new r) }
{
    let Some(value) = value else {
        return Ok(least);
    };
    if seen.insert(value)? {
        Ok(least)
    } else {
        Ok(lesser(least, value))
    }
}

/// The lesser of a value, if there is one, and another.
fn lesser(least: Option<u32>, value: u32) -> Option<u32>
    ensures { result ≡ lesser least value }
{
    match least {
        Some(least) if least < value => Some(least),
        _ => Some(value),
    }
}
