// With what a text begins.
ghost use Rattle.std.specs.Prelude.{◌≡◌};
ghost use Rattle.lua_num.specs.Bytes.{is_space};
ghost use Rattle.lua_tree.specs.Bytes.{is_letter, has_front as has_the_front};
ghost use Rattle.lexer.specs.StringParts.{is_quote};
ghost use Rattle.lexer.specs.Classes.{begins, begins_numeral as begins_a_numeral, begins_bracket as begins_a_bracket, begins_first_line as begins_a_first_line};

/// White space: the bytes 9 to 13 and 32.
pub fn begins_space(text: &[u8]) -> bool
    ensures { result ≡ begins is_space text.now }
{
    matches!(text, [b'\t'..=b'\r' | b' ', ..])
}

/// A name or a keyword.
pub fn begins_word(text: &[u8]) -> bool
    ensures { result ≡ begins is_letter text.now }
{
    matches!(text, [b'A'..=b'Z' | b'a'..=b'z' | b'_', ..])
}

/// A numeral, good or bad.
pub fn begins_numeral(text: &[u8]) -> bool
    ensures { result ≡ begins_a_numeral text.now }
{
    matches!(text, [b'0'..=b'9', ..] | [b'.', b'0'..=b'9', ..])
}

/// A short string.
pub fn begins_quote(text: &[u8]) -> bool
    ensures { result ≡ begins is_quote text.now }
{
    matches!(text, [b'"' | b'\'', ..])
}

/// A long string, or a bad opening of one.
pub fn begins_bracket(text: &[u8]) -> bool
    ensures { result ≡ begins_a_bracket text.now }
{
    has_front(text, b"[[") || has_front(text, b"[=")
}

/// The first line of a source that begins with `#`, which is a comment.
pub fn begins_first_line(at: usize, text: &[u8]) -> bool
    ensures { result ≡ begins_a_first_line at text.now }
{
    at == 0 && has_front(text, b"#")
}

/// Whether the text begins with these bytes.
pub fn has_front(text: &[u8], front: &[u8]) -> bool
    ensures { result ≡ has_the_front front.now text.now }
{
    text.starts_with(front)
}
