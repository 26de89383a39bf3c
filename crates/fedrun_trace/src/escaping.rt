//! Texts as parts of a JSON string, escaped as the kit's `json` escapes them. Names have nothing to escape, and need no
//! memory so.
ghost use Rattle.std.specs.Prelude.{◌≡◌, ◌<◌, ◌∷◌, [], OnOk};
ghost use Rattle.std.specs.Char.{digit_char};
ghost use Rattle.std.specs.Io.KnownBytes.{Appends};
ghost use Rattle.json.specs.Print.{escape, escape_byte};
ghost use Rattle.fedrun_trace.specs.Escaping.{plain_byte};

use std::io;
use std::io::Write;

/// Writes a text so that a string of JSON may have it between its quotes.
#[tactic(auto, using(crate::proofs::Texts::next_more))]
pub(crate) fn write_escaped<W: Write>(out: &mut W, text: &str) -> io::Result<()>
    ensures { OnOk result (Appends (W.contents out.old) (W.contents out.new) (escape text.now)) }
{
    let bytes = text.as_bytes();
    for byte in bytes {
        write_byte(out, *byte)?;
    }
    Ok(())
}

// Writes a byte of a text.
#[tactic(auto, unfolding(json::specs::Print::escape_byte))]
fn write_byte<W: Write>(out: &mut W, byte: u8) -> io::Result<()>
    ensures { OnOk result (Appends (W.contents out.old) (W.contents out.new) (escape_byte byte)) }
{
    match byte {
        b'"' => out.write_all(b"\\\""),
        b'\\' => out.write_all(b"\\\\"),
        8 => out.write_all(b"\\b"),
        12 => out.write_all(b"\\f"),
        b'\n' => out.write_all(b"\\n"),
        b'\r' => out.write_all(b"\\r"),
        b'\t' => out.write_all(b"\\t"),
        _ => write_plain(out, byte),
    }
}

// Writes a byte that has no letter of its own: of a control character its number.
fn write_plain<W: Write>(out: &mut W, byte: u8) -> io::Result<()>
    ensures { OnOk result (Appends (W.contents out.old) (W.contents out.new) (plain_byte byte)) }
{
    if byte < 32 {
        out.write_all(&[
            b'\\',
            b'u',
            b'0',
            b'0',
            hex_digit(byte / 16),
            hex_digit(byte % 16),
        ])
    } else {
        out.write_all(&[byte])
    }
}

// A digit of a number to the base 16.
fn hex_digit(digit: u8) -> u8
    requires { digit < 16 }
    ensures { result ≡ digit_char digit }
{
    if digit < 10 {
        b'0' + digit
    } else {
        b'a' + (digit - 10)
    }
}
