// The hosts of a row, and what was asked of them.
use host::{HostLog, LogEntry};
use lua_model::{Plain, PlainList, Reply, ReplyList};
use lua_num::ByteText;
use std::alloc::{AllocError, Global};

/// The one reply of the host `ask`: true and 5.
pub(crate) fn ask_replies(alloc: Global) -> Result<ReplyList, AllocError> {
    let mut values = PlainList::new(alloc);
    values.push(Plain::Bool(true))?;
    values.push(Plain::Number(5))?;
    let mut replies = ReplyList::new(alloc);
    replies.push(Reply::Values(values))?;
    Ok(replies)
}

/// The replies of the host `readline`: `x`, and a failure with `closed pipe`.
pub(crate) fn line_replies(alloc: Global) -> Result<ReplyList, AllocError> {
    let mut values = PlainList::new(alloc);
    values.push(Plain::Text(ByteText::from_slice(alloc, b"x")?))?;
    let mut replies = ReplyList::new(alloc);
    replies.push(Reply::Values(values))?;
    replies.push(Reply::Fail(ByteText::from_slice(alloc, b"closed pipe")?))?;
    Ok(replies)
}

/// The calls of hosts: the number of each host and its arguments.
pub(crate) fn calls_text(alloc: Global, log: &HostLog) -> Result<String, AllocError> {
    let mut text = String::new(alloc);
    for entry in log.items() {
        let host = entry.host;
        text.push_str(format!(in alloc; ", host {host} <")?.as_str())?;
        push_args(alloc, &mut text, entry)?;
        text.push_str(">")?;
    }
    Ok(text)
}

fn push_args(alloc: Global, text: &mut String, entry: &LogEntry) -> Result<(), AllocError> {
    for (at, arg) in entry.args.items().iter().enumerate() {
        if at > 0 {
            text.push_str(" ")?;
        }
        let shown = match arg {
            Plain::Nil => String::from_str(alloc, "nil")?,
            Plain::Bool(value) => format!(in alloc; "{value}")?,
            Plain::Number(value) => format!(in alloc; "{value}")?,
            Plain::Text(value) => format!(in alloc; "{}", value.bytes().escape_ascii())?,
        };
        text.push_str(shown.as_str())?;
    }
    Ok(())
}
