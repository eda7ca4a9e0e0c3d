// What operators answer.
use lua_heap::ValueList;
use lua_model::Value;

/// What is done with the first result of a handler: it is taken, taken as a truth value, as the negation of one, or left.
#[derive(Clone, Copy, PartialEq, Eq, Debug)]
pub enum Then {
    Take,
    Truth,
    Negate,
    Discard,
}

/// What an operator answers (manual 2.8): a value, a call of a handler, or a failure with a value.
#[derive(Debug, Drop)]
pub enum Act {
    Value(Value),
    Call {
        handler: Value,
        args: ValueList,
        then: Then,
    },
    Fail(Value),
}

/// What a call goes to: a function, a handler which is one and is given the called table before the arguments, or a failure
/// with a value.
#[derive(Clone, Copy, PartialEq, Eq, Debug)]
pub enum Callee {
    Plain(Value),
    Through(Value),
    Fail(Value),
}
