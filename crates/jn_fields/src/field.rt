//! Values that stand in so many bytes.
ghost use Rattle.std.specs.Prelude.{◌≡◌, ℕ, List, length, Option, IfOk};
ghost use Rattle.byteorder.specs.Endian.{big_bytes};
ghost use Rattle.jn_fields.specs.Reading.{Gives, number_at, list_at};

use crate::reading::u16_at;
use byteorder::{BigEndian, ByteOrder};
use std::alloc::{AllocError, Global};

/// What stands in so many bytes, on a page and in a frame.
pub trait Field<const N: usize>: Drop {
    /// Its bytes.
    ghost spelled: { Self → List ℕ };

    /// What stands at the front of bytes, and the bytes behind it.
    ghost read: { List ℕ → Option (Self × List ℕ) };

    fn to_bytes(&self) -> [u8; N]
        ensures bytes { result ≡ spelled self.now }
        ensures size { length (spelled self.now) ≡ N };

    /// What stands at the front, and the bytes behind it; none where there are too few.
    fn at(bytes: &[u8]) -> Option<(Self, &[u8])>
        ensures { Gives (λ r. (r.0, r.1.now)) result (read bytes.now) };
}

impl Field<2> for u16 {
    ghost spelled = { λ n. big_bytes 2 n };

    ghost read = { λ bytes. number_at 2 bytes };

    fn to_bytes(&self) -> [u8; 2] {
        let mut bytes = [0; 2];
        BigEndian::write_u16(&mut bytes, *self);
        bytes
    }

    fn at(bytes: &[u8]) -> Option<(u16, &[u8])> {
        u16_at(bytes)
    }
}

/// So many values from the front of bytes, and the bytes behind them, where they stand there.
pub fn list_at<const N: usize, F: Field<N>>(
    alloc: Global,
    count: u8,
    bytes: &[u8],
) -> Result<Option<(Vec<F>, &[u8])>, AllocError>
    ensures { IfOk result (λ r. Gives (λ x. (x.0.items, x.1.now)) r (list_at F.read count bytes.now)) }
{
    let mut list = Vec::with_capacity(alloc, count as usize)?;
    let mut rest = bytes;
    for _ in 0..count {
        let Some((field, after)) = F::at(rest) else {
            return Ok(None);
        };
        list.push(field)?;
        rest = after;
    }
    Ok(Some((list, rest)))
}
