// Functions of a chunk as the machine has them.
use crate::word::Word;
use lua_model::Value;

/// A function of a chunk: its words, its constants as values of the heap, and the numbers of the functions that stand in it.
#[derive(Drop)]
pub struct Function {
    pub code: Vec<u32>,
    /// The words of its code, decoded.
    pub words: Vec<Word>,
    pub constants: Vec<Value>,
    pub inner: Vec<usize>,
    pub upvalues: u8,
    pub params: u8,
    pub vararg: u8,
    pub registers: u8,
}
