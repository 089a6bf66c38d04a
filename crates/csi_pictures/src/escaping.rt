//! Texts within an element of XML.
ghost use Rattle.std.specs.Prelude.{Some};
ghost use Rattle.std.specs.Fmt.{WritesOnOk};
ghost use Rattle.csi_pictures.specs.Private.Escaping.{escaped_byte, escaped};

use std::fmt;

/// A text as it stands between two tags, whatever it is.
#[derive(Drop)]
pub struct Escaped<'a>(pub &'a str);

// Writes a byte so that it stands for itself between two tags, or so that one sees which it is.
fn write_byte<W: fmt::Write>(f: &mut fmt::Formatter<W>, byte: u8) -> fmt::Result
    ensures { WritesOnOk W.write_str_gives f.old result (escaped_byte byte) f.new }
{
    if byte == b'&' {
        return f.write_str("&amp;");
    }
    if byte == b'<' {
        return f.write_str("&lt;");
    }
    if byte == b'>' {
        return f.write_str("&gt;");
    }
    if byte < 32 || byte > 126 || byte == b'"' || byte == b'\\' {
        return write!(f, "\\x{byte:02x}");
    }
    f.write_char(char::from(byte))
}

impl fmt::Display for Escaped<'_> {
    ghost output = { λ text. Some (escaped text.0.now) };

    fn fmt<W: fmt::Write>(&self, f: &mut fmt::Formatter<W>) -> fmt::Result {
        let bytes = self.0.as_bytes();
        for byte in bytes {
            write_byte(f, *byte)?;
        }
        Ok(())
    }
}
