// What built-in functions answer.
use lua_heap::ValueList;
use lua_model::Value;
use lua_num::ByteText;

/// What a built-in function answers (manual 5.1): results, a piece to be printed, a failure with a value, a protected
/// call of a value to be made, or the name of the host that is to be closed, where it is live.
#[derive(Debug, Drop)]
pub enum NativeAct {
    Values(ValueList),
    Print(ByteText),
    Fail(Value),
    Protect { f: Value, args: ValueList },
    CloseHost(ByteText),
}
