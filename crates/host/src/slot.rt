// One host of a set.
ghost use Rattle.std.specs.Prelude.{◌≡◌, true, List, [], ◌∷◌, ◌++◌, Some, None, is_some, option_map, map, position};
ghost use Rattle.std.specs.Str.{bytes_eq};
ghost use Rattle.host.specs.Heard.{Exchange, heard_after};
ghost use Rattle.host.specs.Hosts.{host_called};
ghost use Rattle.host.specs.Views.{slot_state, BoxHears};

use crate::host::Host;
use lua_model::{Plain, Reply};
use lua_num::ByteText;
use std::alloc::Global;

// A host with its name, or the name of a closed one.
#[derive(Drop)]
pub(crate) struct HostSlot {
    name: ByteText,
    live: Option<Box<dyn Host>>,
}

impl HostSlot {
    // A live host.
    pub(crate) fn new(name: ByteText, host: Box<dyn Host>) -> Self
        ensures state { slot_state heard result ≡ record { name = name; live = Some (heard host) } }
        ensures kept { result.live ≡ Some host }
    {
        Self {
            name,
            live: Some(host),
        }
    }

    // The name.
    pub(crate) fn name(&self) -> &[u8]
        ensures { result.now ≡ self.now.name }
    {
        self.name.bytes()
    }

    // Whether the host is live.
    pub(crate) fn is_live(&self) -> bool
        ensures { result ≡ is_some self.now.live }
    {
        self.live.is_some()
    }

    // Calls the host, which is live.
    pub(crate) fn call(&mut self, alloc: Global, args: &[Plain]) -> Reply
        requires { is_some self.old.live ≡ true }
        ensures state { slot_state heard self.new ≡ host_called (slot_state heard self.old) args.now result }
        ensures once { (before : List Exchange) → BoxHears hears self.old.live before
            → BoxHears hears self.new.live (before ++ record { args = args.now; reply = result } ∷ []) }
    {
        match &mut self.live {
            Some(host) => call_host(host, alloc, args),
            None => unreachable!(),
        }
    }

    // Drops the host, if it is live.
    pub(crate) fn close(&mut self)
        ensures { slot_state heard self.new ≡ record (slot_state heard self.old) { live = None } }
    {
        self.live = None;
    }
}

// The number of the first host of this name.
pub(crate) fn position_of(slots: &[HostSlot], name: &[u8]) -> Option<usize>
    ensures { result ≡ position (λ other. bytes_eq other name.now) (map (λ slot. slot.name) slots.now) }
{
    for (number, slot) in slots.iter().enumerate() {
        if slot.name() == name {
            return Some(number);
        }
    }
    None
}

// Calls a host.
fn call_host(host: &mut Box<dyn Host>, alloc: Global, args: &[Plain]) -> Reply
    ensures once { (before : List Exchange) → hears host.old before → hears host.new (before ++ record { args = args.now; reply = result } ∷ []) }
    ensures heard { heard host.new ≡ option_map (λ h. heard_after h args.now result) (heard host.old) }
{
    host.call(alloc, args)
}
