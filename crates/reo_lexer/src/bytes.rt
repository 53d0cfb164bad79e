//! Classes of bytes.
ghost use Rattle.std.specs.Prelude.{◌≡◌};
ghost use Rattle.reo_values.specs.Names.{is_digit as digit_test, is_letter as letter_test, is_name_byte as name_test};
ghost use Rattle.reo_grammar.specs.Bytes.{is_unescaped as unescaped_test, is_escaped as escaped_test};
ghost use Rattle.reo_lexer.specs.Gaps.{is_space as space_test};
ghost use Rattle.reo_lexer.specs.Faults.{is_break as break_test};

/// Whether it is a decimal digit.
pub fn is_digit(byte: u8) -> bool
    ensures { result ≡ digit_test byte }
{
    b'0' <= byte && byte <= b'9'
}

/// Whether a name may begin with it.
pub fn is_letter(byte: u8) -> bool
    ensures { result ≡ letter_test byte }
{
    (b'A' <= byte && byte <= b'Z') || (b'a' <= byte && byte <= b'z') || byte == b'_'
}

/// Whether a name may go on with it.
pub fn is_name_byte(byte: u8) -> bool
    ensures { result ≡ name_test byte }
{
    is_letter(byte) || is_digit(byte)
}

/// Whether it stands between tokens.
pub fn is_space(byte: u8) -> bool
    ensures { result ≡ space_test byte }
{
    byte == b' ' || byte == b'\t' || byte == b'\r' || byte == b'\n'
}

/// Whether it may stand in a text in quotes as it is.
pub fn is_unescaped(byte: u8) -> bool
    ensures { result ≡ unescaped_test byte }
{
    b' ' <= byte && byte <= b'~' && byte != b'"' && byte != b'\\'
}

/// Whether a `\` may stand before it in a text in quotes.
pub fn is_escaped(byte: u8) -> bool
    ensures { result ≡ escaped_test byte }
{
    byte == b'"' || byte == b'\\'
}

/// Whether a line ends there.
pub fn is_break(byte: u8) -> bool
    ensures { result ≡ break_test byte }
{
    byte == b'\n' || byte == b'\r'
}
