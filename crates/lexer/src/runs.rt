// The longest runs of bytes that stand at the front of a text.
ghost use Rattle.std.specs.Prelude.{◌≡◌, not};
ghost use Rattle.lua_num.specs.Bytes.{is_space};
ghost use Rattle.lua_tree.specs.Bytes.{is_word, is_numeral, ends_line};
ghost use Rattle.lexer.specs.Fronts.{RunFront};

/// How many bytes of white space stand at the front.
pub fn space_length(text: &[u8]) -> usize
    ensures { RunFront is_space result text.now }
{
    text.iter().take_while(|byte| is_space_byte(**byte)).count()
}

/// How many letters, digits and `_` stand at the front.
pub fn word_length(text: &[u8]) -> usize
    ensures { RunFront is_word result text.now }
{
    text.iter().take_while(|byte| is_word_byte(**byte)).count()
}

/// How many letters, digits, `_` and `.` stand at the front.
pub fn numeral_length(text: &[u8]) -> usize
    ensures { RunFront is_numeral result text.now }
{
    text.iter()
        .take_while(|byte| is_numeral_byte(**byte))
        .count()
}

/// How many bytes stand before the first line end.
pub fn line_length(text: &[u8]) -> usize
    ensures { RunFront (λ byte. not (ends_line byte)) result text.now }
{
    text.iter().take_while(|byte| !is_line_end(**byte)).count()
}

// `is_ascii_whitespace` leaves out the vertical tab.
fn is_space_byte(byte: u8) -> bool
    ensures { result ≡ is_space byte }
{
    matches!(byte, b'\t'..=b'\r' | b' ')
}

fn is_word_byte(byte: u8) -> bool
    ensures { result ≡ is_word byte }
{
    byte.is_ascii_alphanumeric() || byte == b'_'
}

fn is_numeral_byte(byte: u8) -> bool
    ensures { result ≡ is_numeral byte }
{
    is_word_byte(byte) || byte == b'.'
}

/// Whether a byte ends a line: the bytes 10 and 13.
pub fn is_line_end(byte: u8) -> bool
    ensures { result ≡ ends_line byte }
{
    matches!(byte, b'\n' | b'\r')
}
