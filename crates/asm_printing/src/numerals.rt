//! Bytes and numbers at the end of a text.

ghost use Rattle.std.specs.Prelude.{◌≡◌, ◌+◌, ◌++◌, ◌<◌, ◌≤◌, length, vec_len, vec_capacity, OnOk, OnErr, false, decimal};
ghost use Rattle.std.specs.Fmt.{digits, digit_glyph};
ghost use Rattle.std.specs.Io.{StartsWith};

use itoa::Buffer;
use std::alloc::AllocError;

/// How many digits a number has at most in decimal.
const DECIMAL_ROOM: usize = 20;

/// How many digits a number has at most in hexadecimal.
const HEX_ROOM: usize = 16;

/// Appends bytes. Want of memory leaves what stood before at the head of `out`.
pub fn push_bytes(out: &mut Vec<u8>, bytes: &[u8]) -> Result<(), AllocError>
    ensures ok { OnOk result (out.new.items ≡ out.old.items ++ bytes.now) }
    ensures err { OnErr result (StartsWith out.new.items out.old.items) }
{
    out.extend_from_slice(bytes)
}

/// Puts bytes where there is room for them.
pub(crate) fn put_bytes(out: &mut Vec<u8>, bytes: &[u8])
    requires { vec_len out.old + length bytes.now ≤ vec_capacity out.old }
    ensures items { out.new.items ≡ out.old.items ++ bytes.now }
    ensures len { vec_len out.new ≡ vec_len out.old + length bytes.now }
    ensures capacity { vec_capacity out.new ≡ vec_capacity out.old }
{
    for byte in bytes {
        out.push_reserved(*byte);
    }
}

/// Puts a number in decimal where there is room for it.
pub(crate) fn put_decimal(out: &mut Vec<u8>, n: u64)
    requires { vec_len out.old + length (decimal n) ≤ vec_capacity out.old }
    ensures items { out.new.items ≡ out.old.items ++ decimal n }
    ensures len { vec_len out.new ≡ vec_len out.old + length (decimal n) }
    ensures capacity { vec_capacity out.new ≡ vec_capacity out.old }
{
    let mut buffer = Buffer::new();
    put_bytes(out, buffer.format(n).as_bytes());
}

/// Appends a number in decimal.
#[tactic(auto, using(crate::proofs::Rooms::decimal_is_short))]
pub fn push_decimal(out: &mut Vec<u8>, n: u64) -> Result<(), AllocError>
    ensures ok { OnOk result (out.new.items ≡ out.old.items ++ decimal n) }
    ensures err { OnErr result (StartsWith out.new.items out.old.items) }
{
    out.reserve(DECIMAL_ROOM)?;
    put_decimal(out, n);
    Ok(())
}

fn hex_digit(digit: u64) -> u8
    requires { digit < 16 }
    ensures { result ≡ digit_glyph false digit }
{
    if digit < 10 {
        b'0' + digit as u8
    } else {
        b'a' - 10 + digit as u8
    }
}

/// Puts a number in hexadecimal, in lower case and without a prefix, where there is room for it.
#[tactic(auto, using(asm_lexemes::proofs::HexDigits::hex_step, asm_lexemes::proofs::HexDigits::hex_one, std::proofs::lemmas::Grind::common_steps))]
pub(crate) fn put_hex(out: &mut Vec<u8>, n: u64)
    requires { vec_len out.old + length (digits 16 false n) ≤ vec_capacity out.old }
    ensures items { out.new.items ≡ out.old.items ++ digits 16 false n }
    ensures len { vec_len out.new ≡ vec_len out.old + length (digits 16 false n) }
    ensures capacity { vec_capacity out.new ≡ vec_capacity out.old }
{
    if n >= 16 {
        put_hex(out, n / 16);
    }
    out.push_reserved(hex_digit(n % 16));
}

/// Appends a number in hexadecimal, in lower case and without a prefix.
#[tactic(auto, using(crate::proofs::Rooms::hex_fits))]
pub fn push_hex(out: &mut Vec<u8>, n: u64) -> Result<(), AllocError>
    ensures ok { OnOk result (out.new.items ≡ out.old.items ++ digits 16 false n) }
    ensures err { OnErr result (StartsWith out.new.items out.old.items) }
{
    out.reserve(HEX_ROOM)?;
    put_hex(out, n);
    Ok(())
}
