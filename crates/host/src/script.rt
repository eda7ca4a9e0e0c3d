// A host of replies that are given in turn.
ghost use Rattle.std.specs.Prelude.{◌≡◌, List, [], ◌∷◌, ◌++◌, Some, IfOk, OnOk, OnErr};
ghost use Rattle.host.specs.Heard.{Exchange, answered};
ghost use Rattle.host.specs.Script.{next_reply, script_after, ScriptAnswers};

use crate::copies::{copy_reply, copy_values};
use crate::host::Host;
use lua_model::{Plain, PlainList, Reply, ReplyList};
use lua_num::ByteText;
use std::alloc::{AllocError, Global};
use std::marker::Model;

/// A host that gives the replies of a list in turn, and fails with the text `no more replies` behind the last one. It
/// tells its calls. Contracts see the replies that are left, and the calls so far with their replies.
#[derive(Debug, Drop)]
pub struct ScriptHost {
    replies: ReplyList,
    // The arguments of each call that used up a reply, or came behind the last one.
    asked: Vec<PlainList>,
}

impl Model for ScriptHost {
    ghost use Rattle.host.specs.Script.{ScriptState, script_state};

    ghost Value = { ScriptState };

    ghost view = { λ s. script_state s.replies s.asked.items };
}

impl ScriptHost {
    /// A host of these replies that was not called yet, which takes no memory.
    pub fn new(alloc: Global, replies: ReplyList) -> Self
        ensures { result ≡ record { left = replies; heard = [] } }
    {
        Self {
            replies,
            asked: Vec::new(alloc),
        }
    }

    // A copy of the reply that comes next.
    fn copy_of_next(&self, alloc: Global) -> Result<Reply, AllocError>
        ensures { IfOk result (λ reply. reply ≡ next_reply self.now.left) }
    {
        match self.replies.items().get(self.asked.len()) {
            Some(reply) => copy_reply(alloc, reply),
            None => {
                let text = ByteText::from_slice(alloc, b"no more replies")?;
                Ok(Reply::Fail(text))
            }
        }
    }

    // Gives the reply that comes next.
    fn answer(&mut self, alloc: Global, args: &[Plain]) -> Result<Reply, AllocError>
        ensures next { IfOk result (λ reply. reply ≡ next_reply self.old.left) }
        ensures ok { OnOk result (self.new ≡ script_after self.old args.now) }
        ensures err { OnErr result (self.new ≡ self.old) }
    {
        let reply = self.copy_of_next(alloc)?;
        let args = copy_values(alloc, args)?;
        self.asked.push(args)?;
        Ok(reply)
    }
}

impl Host for ScriptHost {
    ghost heard = { λ s. Some s.heard };

    ghost hears = { λ s exchanges. s.heard ≡ answered exchanges };

    /// Gives the reply that comes next, in linear time in it and in the arguments. Where no memory is found for a copy
    /// of either, it answers `OutOfMemory` and no reply is used up.
    fn call(&mut self, alloc: Global, args: &[Plain]) -> Reply
        ensures answers { ScriptAnswers self.old args.now result self.new }
        ensures once { (before : List Exchange) → self.old.heard ≡ answered before → self.new.heard ≡ answered (before ++ record { args = args.now; reply = result } ∷ []) }
    {
        match self.answer(alloc, args) {
            Ok(reply) => reply,
            Err(_) => Reply::OutOfMemory,
        }
    }
}
