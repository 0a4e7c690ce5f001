//! Which bytes are a name in a directory.
ghost use Rattle.std.specs.Prelude.{◌≡◌};
ghost use Rattle.std.specs.List.{list_all};
ghost use Rattle.jn_base.specs.Names.{is_letter, is_name};

/// How many bytes a name has at most.
const MOST_LETTERS: usize = 64;

fn is_letter(byte: u8) -> bool
    ensures { result ≡ is_letter byte }
{
    matches!(byte, b'a'..=b'z' | b'0'..=b'9' | b'.' | b'_' | b'-')
}

fn are_letters(bytes: &[u8]) -> bool
    ensures { result ≡ list_all is_letter bytes.now }
{
    for byte in bytes {
        if !is_letter(*byte) {
            return false;
        }
    }
    true
}

/// Whether the bytes are a name: 1 to 64 of `a` to `z`, `0` to `9`, `.`, `_` and `-`.
pub fn is_name(bytes: &[u8]) -> bool
    ensures { result ≡ is_name bytes.now }
{
    1 <= bytes.len() && bytes.len() <= MOST_LETTERS && are_letters(bytes)
}
