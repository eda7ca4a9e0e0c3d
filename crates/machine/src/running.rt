// What runs.
use crate::frame::Frame;
use lua_heap::Heap;
use lua_num::ByteText;
use upvalue::ValueStack;

/// The heap, the registers and the frames of a run.
#[derive(Drop)]
pub struct Running {
    pub heap: Heap,
    pub stack: ValueStack,
    pub top: Frame,
    /// The frames below the topmost one, the main frame first.
    pub below: Vec<Frame>,
    /// What the step printed, in order.
    pub pieces: Vec<ByteText>,
}
