ghost use Rattle.netlist.specs.Bytes.{word_byte, blank_byte, stop_byte};
ghost use Rattle.std.specs.Prelude.{◌≡◌};

// Blanks stand between tokens: spaces, tabs and carriage returns.
pub fn is_blank(byte: u8) -> bool
    ensures { result ≡ blank_byte byte }
{
    matches!(byte, b' ' | b'\t' | b'\r')
}

// Words are made of letters, digits and underscores.
pub(crate) fn is_word_byte(byte: u8) -> bool
    ensures { result ≡ word_byte byte }
{
    byte.is_ascii_alphanumeric() || byte == b'_'
}

// A text line's tokens end at its byte 10, and before that at a `#`, which hides the rest.
pub(crate) fn is_stop(byte: u8) -> bool
    ensures { result ≡ stop_byte byte }
{
    matches!(byte, b'\n' | b'#')
}
