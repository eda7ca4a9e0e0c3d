// The numbers of constants.
use crate::fault::RowFault;
use lua_num::ByteText;
use proto::{Constant, ConstantTable};
use std::alloc::{AllocError, Global};

/// The number of each constant of a text, one behind the other.
pub(crate) fn numbers(alloc: Global, text: &str) -> Result<String, RowFault> {
    let mut table = ConstantTable::new(alloc);
    let mut numbers = String::new(alloc);
    for word in text.split_ascii_whitespace() {
        let number = table.number(constant_of(alloc, word)?)?;
        let separator = if numbers.is_empty() { "" } else { " " };
        numbers.push_str(&format!(in alloc; "{separator}{number}")?)?;
    }
    Ok(numbers)
}

/// A constant: `nil`, `true`, `false`, a number, or a text between quotes.
fn constant_of(alloc: Global, word: &str) -> Result<Constant, AllocError> {
    match word {
        "nil" => Ok(Constant::Nil),
        "true" => Ok(Constant::Bool(true)),
        "false" => Ok(Constant::Bool(false)),
        _ => number_or_text(alloc, word),
    }
}

fn number_or_text(alloc: Global, word: &str) -> Result<Constant, AllocError> {
    if let Ok(number) = word.parse::<i64>() {
        return Ok(Constant::Number(number));
    }
    let text = word.strip_prefix('"').unwrap_or(word);
    let text = text.strip_suffix('"').unwrap_or(text);
    Ok(Constant::Text(ByteText::from_slice(alloc, text.as_bytes())?))
}
