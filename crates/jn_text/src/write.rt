//! Appends numbers and bytes to a text.
ghost use Rattle.std.specs.Prelude.{◌≡◌, ◌<◌, ◌++◌, decimal, OnOk, OnErr};
ghost use Rattle.hex.specs.Hex.{encode_lower};
ghost use Rattle.jn_text.specs.Words.{block_word, hex_word, without_end_zeros};

use itoa::Buffer;
use std::alloc::AllocError;

/// Appends a number in decimal digits, with no sign and no leading zero.
pub fn push_number(out: &mut Vec<u8>, n: u64) -> Result<(), AllocError>
    ensures ok { OnOk result (out.new.items ≡ out.old.items ++ decimal n) }
    ensures err { OnErr result (out.new.items ≡ out.old.items) }
{
    if n < 10 {
        return push_digit(out, n as u8);
    }
    let mut buffer = Buffer::new();
    out.extend_from_slice(buffer.format(n).as_bytes())
}

/// Appends a number of one digit, as most numbers of a report are.
fn push_digit(out: &mut Vec<u8>, n: u8) -> Result<(), AllocError>
    requires { n < 10 }
    ensures ok { OnOk result (out.new.items ≡ out.old.items ++ decimal n) }
    ensures err { OnErr result (out.new.items ≡ out.old.items) }
{
    out.push(b'0' + n)?;
    Ok(())
}

/// Appends bytes as pairs of lower-case hexadecimal digits, without the zeros at the end of the
/// bytes; `-` where none are left.
pub fn push_hex(out: &mut Vec<u8>, bytes: &[u8]) -> Result<(), AllocError>
    ensures ok { OnOk result (out.new.items ≡ out.old.items ++ block_word bytes.now) }
    ensures err { OnErr result (out.new.items ≡ out.old.items) }
{
    push_all_hex(out, before_end_zeros(bytes))
}

/// Appends bytes as pairs of lower-case hexadecimal digits; `-` where there are none.
pub fn push_all_hex(out: &mut Vec<u8>, bytes: &[u8]) -> Result<(), AllocError>
    ensures ok { OnOk result (out.new.items ≡ out.old.items ++ hex_word bytes.now) }
    ensures err { OnErr result (out.new.items ≡ out.old.items) }
{
    if bytes.is_empty() {
        return out.extend_from_slice(b"-");
    }
    push_pairs(out, bytes)
}

/// The bytes without the zeros at their end.
pub fn before_end_zeros(bytes: &[u8]) -> &[u8]
    ensures { result.now ≡ without_end_zeros bytes.now }
{
    before_few_zeros(before_many_zeros(bytes))
}

/// The bytes without zeros at their end that stand 32 together.
fn before_many_zeros(bytes: &[u8]) -> &[u8]
    ensures { without_end_zeros result.now ≡ without_end_zeros bytes.now }
{
    let mut used = bytes;
    while let Some(before) = used.strip_suffix(&[0; 32]) {
        used = before;
    }
    used
}

/// The bytes without the zeros at their end, each of which is looked at.
fn before_few_zeros(bytes: &[u8]) -> &[u8]
    ensures { result.now ≡ without_end_zeros bytes.now }
{
    let mut used = bytes.len();
    while used > 0 && bytes[used - 1] == 0 {
        used -= 1;
    }
    &bytes[..used]
}

/// Appends each byte as two digits.
fn push_pairs(out: &mut Vec<u8>, bytes: &[u8]) -> Result<(), AllocError>
    ensures ok { OnOk result (out.new.items ≡ out.old.items ++ encode_lower bytes.now) }
    ensures err { OnErr result (out.new.items ≡ out.old.items) }
{
    let start = out.len();
    let end = bytes
        .len()
        .checked_mul(2)
        .and_then(|digits| start.checked_add(digits))
        .ok_or(AllocError)?;
    out.resize(end, 0)?;
    let fits = hex::encode_to_slice(bytes, &mut out[start..]).is_ok();
    prove!(fits);
    Ok(())
}
