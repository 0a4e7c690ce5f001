//! Numbers in decimal digits.
ghost use Rattle.std.specs.Prelude.{◌≡◌, ◌≤◌, ◌<◌, ◌+◌, ◌/◌, ◌++◌, decimal, vec_len, vec_capacity, OnOk, OnErr};
ghost use Rattle.jn_report.specs.Append.{two_digits};

use std::alloc::AllocError;

/// Appends a number, with no leading zero.
#[inline(always)]
#[tactic(auto, using(crate::proofs::Decimals::one))]
pub(crate) fn push_digits(out: &mut Vec<u8>, n: u32) -> Result<(), AllocError>
    ensures ok { OnOk result (out.new.items ≡ out.old.items ++ decimal n) }
    ensures err { OnErr result (out.new.items ≡ out.old.items) }
{
    if n < 10 {
        out.push(b'0' + n as u8)?;
        return Ok(());
    }
    push_more(out, n)
}

/// The same, apart, so that what is inlined stays small.
#[inline(never)]
fn push_more(out: &mut Vec<u8>, n: u32) -> Result<(), AllocError>
    ensures ok { OnOk result (out.new.items ≡ out.old.items ++ decimal n) }
    ensures err { OnErr result (out.new.items ≡ out.old.items) }
{
    out.reserve(10)?;
    put_number(out, n);
    Ok(())
}

/// The same, where there is room for ten digits.
fn put_number(out: &mut Vec<u8>, n: u32)
    requires { vec_len out.old + 10 ≤ vec_capacity out.old }
    ensures { out.new.items ≡ out.old.items ++ decimal n }
{
    if n < 10_000 {
        put_thousands(out, n);
    } else if n < 100_000_000 {
        put_thousands(out, n / 10_000);
        put_four(out, n);
    } else {
        put_tens(out, n / 100_000_000);
        put_four(out, n / 10_000);
        put_four(out, n);
    }
}

/// A number of at most four digits, where there is room for them.
fn put_thousands(out: &mut Vec<u8>, n: u32)
    requires small { n < 10000 }
    requires room { vec_len out.old + 4 ≤ vec_capacity out.old }
    ensures items { out.new.items ≡ out.old.items ++ decimal n }
    ensures len { vec_len out.new ≤ vec_len out.old + 4 }
    ensures capacity { vec_capacity out.new ≡ vec_capacity out.old }
{
    if n < 100 {
        put_tens(out, n);
    } else {
        put_tens(out, n / 100);
        put_two(out, n);
    }
}

/// A number of at most two.
#[tactic(auto, using(crate::proofs::Decimals::one, crate::proofs::Decimals::two))]
fn put_tens(out: &mut Vec<u8>, n: u32)
    requires small { n < 100 }
    requires room { vec_len out.old + 2 ≤ vec_capacity out.old }
    ensures items { out.new.items ≡ out.old.items ++ decimal n }
    ensures len { vec_len out.new ≤ vec_len out.old + 2 }
    ensures capacity { vec_capacity out.new ≡ vec_capacity out.old }
{
    if n < 10 {
        out.push_reserved(b'0' + n as u8);
    } else {
        put_two(out, n);
    }
}

/// Appends the last four digits of a number.
fn put_four(out: &mut Vec<u8>, n: u32)
    requires { vec_len out.old + 4 ≤ vec_capacity out.old }
    ensures items { out.new.items ≡ out.old.items ++ (two_digits (n / 100) ++ two_digits n) }
    ensures len { vec_len out.new ≡ vec_len out.old + 4 }
    ensures capacity { vec_capacity out.new ≡ vec_capacity out.old }
{
    put_two(out, n / 100);
    put_two(out, n);
}

/// Appends the last two digits of a number.
fn put_two(out: &mut Vec<u8>, n: u32)
    requires { vec_len out.old + 2 ≤ vec_capacity out.old }
    ensures items { out.new.items ≡ out.old.items ++ two_digits n }
    ensures len { vec_len out.new ≡ vec_len out.old + 2 }
    ensures capacity { vec_capacity out.new ≡ vec_capacity out.old }
{
    out.push_reserved(b'0' + (n / 10 % 10) as u8);
    out.push_reserved(b'0' + (n % 10) as u8);
}
