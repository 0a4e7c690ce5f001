//! What a report spells is read where a schedule says it.

ghost use Rattle.std.specs.Prelude.{false, ◌≡◌, ◌-◌, ◌+◌, ◌++◌, ◌≤◌, ℕ, List, length, take, drop, slice_index};
ghost use Rattle.hex.specs.Hex.{IsBytes};
ghost use Rattle.jn_text.specs.Read.{is_lower_hex_digit, IsHexAt};
ghost use Rattle.jn_text.specs.Words.{block_word, hex_word, without_end_zeros};

/// What a report spells of a block's bytes (`block_word`, as `push_hex` appends it) is read in a schedule (`IsHexAt`, as `read_hex` reads it): as these bytes,
/// without the zeros at their end, up to the end of what was spelled. No other spelling of the same bytes is read.
pub fn hex_is_read_back()
    ensures read { (before content after : List ℕ) → IsBytes content → length content ≤ 448 → is_lower_hex_digit (slice_index after 0) ≡ false
        → IsHexAt (before ++ (block_word content ++ after)) (length before) (without_end_zeros content) (length before + length (block_word content)) }
    ensures alone { (text : List ℕ) → (at : ℕ) → (content : List ℕ) → (end : ℕ)
        → IsHexAt text at content end → take (end - at) (drop at text) ≡ hex_word content }
{}
