//! Numbers and bytes read from the front of bytes.
ghost use Rattle.std.specs.Prelude.{◌≡◌};
ghost use Rattle.jn_fields.specs.Reading.{Gives, number_at, bytes_at};

use jn_base::{take_bytes, take_u8, take_u16, take_u32};

#[tactic(auto, unfolding(crate::specs::Reading::number_at))]
pub fn u8_at(bytes: &[u8]) -> Option<(u8, &[u8])>
    ensures { Gives (λ r. (r.0, r.1.now)) result (number_at 1 bytes.now) }
{
    take_u8(bytes)
}

#[tactic(auto, unfolding(crate::specs::Reading::number_at))]
pub fn u16_at(bytes: &[u8]) -> Option<(u16, &[u8])>
    ensures { Gives (λ r. (r.0, r.1.now)) result (number_at 2 bytes.now) }
{
    take_u16(bytes)
}

#[tactic(auto, unfolding(crate::specs::Reading::number_at))]
pub fn u32_at(bytes: &[u8]) -> Option<(u32, &[u8])>
    ensures { Gives (λ r. (r.0, r.1.now)) result (number_at 4 bytes.now) }
{
    take_u32(bytes)
}

#[tactic(auto, unfolding(crate::specs::Reading::bytes_at))]
pub fn bytes_at(bytes: &[u8], n: usize) -> Option<(&[u8], &[u8])>
    ensures { Gives (λ r. (r.0.now, r.1.now)) result (bytes_at n bytes.now) }
{
    take_bytes(bytes, n)
}
