// Numbers, their texts, and texts as lists of bytes.
#![tactic(auto)]

mod arith;
mod byte_text;
mod laws;
mod names;
mod numbers;

pub use arith::{ArithOp, CompareOp, NumFault, add, div, mul, neg, pow, rem, sub};
pub use byte_text::ByteText;
pub use laws::{numeral_writes, remainder_is_floor, text_number_writes, wrap_is_wrapped};
pub use names::Names;
pub use numbers::{decimal, decimal_reads_back, numeral, to_number};
