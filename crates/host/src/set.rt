// A set of hosts by names and numbers.
ghost use Rattle.std.specs.Prelude.{◌≡◌, ◌≢◌, ℕ, ◌<◌, List, [], ◌∷◌, ◌++◌, true, false, length, map, OnOk, OnErr, IfErr};
ghost use Rattle.host.specs.Heard.{Exchange};
ghost use Rattle.host.specs.Hosts.{NamesDiffer, names_of, has_name, number_of, name_at, is_live_at, with_host, called, last_reply, closed};

use crate::host::Host;
use crate::log::{HostLog, LogEntry, make_room};
use crate::slot::{HostSlot, position_of};
use lua_model::{PlainList, Reply};
use lua_num::ByteText;
use std::alloc::{AllocError, Global};

/// Hosts by their names, of which no two are equal, and by their numbers in the order in which they came, from 0, with a
/// log of all calls. A closed host keeps its name and its number. Contracts see `set_state heard` of it, and those of
/// other crates `set_told heard`.
#[derive(Drop)]
pub struct HostSet {
    hosts: Vec<HostSlot>,
    log: HostLog,
    ghost names_differ: { NamesDiffer (map (λ slot. slot.name) hosts.items) },
}

impl HostSet {
    ghost use Rattle.host.specs.Views.{set_state, HostHears};

    /// No hosts and no calls, which takes no memory.
    pub fn new(alloc: Global) -> Self
        ensures { set_state heard result ≡ record { hosts = []; log = [] } }
    {
        Self {
            hosts: Vec::new(alloc),
            log: HostLog::new(alloc),
        }
    }

    /// Whether a host, live or closed, has this name. In linear time in the hosts.
    pub fn has(&self, name: &[u8]) -> bool
        ensures { result ≡ has_name name.now (set_state heard self.now).hosts }
    {
        self.find(name).is_some()
    }

    /// The number of the host of this name, live or closed. In linear time in the hosts, without taking memory.
    pub fn find(&self, name: &[u8]) -> Option<usize>
        ensures number { result ≡ number_of name.now (set_state heard self.now).hosts }
        ensures names_differ { NamesDiffer (names_of (set_state heard self.now).hosts) }
    {
        position_of(self.hosts.as_slice(), name)
    }

    /// How many hosts there are, live or closed.
    pub fn count(&self) -> usize
        ensures { result ≡ length (set_state heard self.now).hosts }
    {
        self.hosts.len()
    }

    /// The name of a host, live or closed.
    pub fn name(&self, host: usize) -> &[u8]
        requires { host < length (set_state heard self.now).hosts }
        ensures { result.now ≡ name_at (set_state heard self.now).hosts host }
    {
        self.hosts[host].name()
    }

    /// Whether a host is live.
    pub fn is_live(&self, host: usize) -> bool
        requires { host < length (set_state heard self.now).hosts }
        ensures { result ≡ is_live_at (set_state heard self.now).hosts host }
    {
        self.hosts[host].is_live()
    }

    /// The calls so far.
    pub fn log(&self) -> &HostLog
        ensures { result.now ≡ (set_state heard self.now).log }
    {
        &self.log
    }

    /// Adds a live host of a new name. Its number is the count so far. Where no memory is found, the set is as it was and
    /// the host is handed back. In constant time on average, and linear in the name.
    pub fn add(
        &mut self,
        alloc: Global,
        name: &[u8],
        host: Box<dyn Host>,
    ) -> Result<(), (Box<dyn Host>, AllocError)>
        requires { has_name name.now (set_state heard self.old).hosts ≡ false }
        ensures ok { OnOk result (set_state heard self.new ≡ with_host (set_state heard self.old) name.now (heard host)) }
        ensures err { OnErr result (set_state heard self.new ≡ set_state heard self.old) }
        ensures returned { IfErr result (λ e. e.0 ≡ host) }
        ensures added { OnOk result ((before : List Exchange) → hears host before → HostHears hears self.new (length (set_state heard self.old).hosts) before) }
        ensures others { (other : ℕ) (before : List Exchange) → HostHears hears self.old other before → HostHears hears self.new other before }
    {
        let name = match ByteText::from_slice(alloc, name) {
            Ok(name) => name,
            Err(error) => return Err((host, error)),
        };
        if let Err(error) = self.hosts.reserve(1) {
            return Err((host, error));
        }
        self.hosts.push_reserved(HostSlot::new(name, host));
        Ok(())
    }

    /// The reply of the last call, which is in the log.
    pub fn last_reply(&self) -> &Reply
        requires { 0 < length (set_state heard self.now).log }
        ensures { result.now ≡ last_reply (set_state heard self.now).log }
    {
        let entries = self.log.items();
        &entries[entries.len() - 1].reply
    }

    /// Calls a live host and logs the call with its reply, whatever that is; `last_reply` then lends it. Where no memory
    /// is found for the entry, nobody is called and nothing changes. In constant time on average, beyond the host's own.
    pub fn call(&mut self, alloc: Global, host: usize, args: PlainList) -> Result<(), AllocError>
        requires in_range { host < length (set_state heard self.old).hosts }
        requires live { is_live_at (set_state heard self.old).hosts host ≡ true }
        ensures ok { OnOk result (set_state heard self.new ≡ called (set_state heard self.old) host args (last_reply (set_state heard self.new).log)) }
        ensures logged { OnOk result (0 < length (set_state heard self.new).log) }
        ensures err { OnErr result (set_state heard self.new ≡ set_state heard self.old) }
        ensures once { OnOk result ((before : List Exchange) → HostHears hears self.old host before
            → HostHears hears self.new host (before ++ record { args = args; reply = last_reply (set_state heard self.new).log } ∷ [])) }
        ensures others { OnOk result ((other : ℕ) (before : List Exchange) → other ≢ host → HostHears hears self.old other before → HostHears hears self.new other before) }
        ensures nobody { OnErr result ((number : ℕ) (before : List Exchange) → HostHears hears self.old number before → HostHears hears self.new number before) }
    {
        let entries = &mut self.log.entries;
        make_room(entries)?;
        let reply = self.hosts[host].call(alloc, args.items());
        entries.push_reserved(LogEntry { host, args, reply });
        Ok(())
    }

    /// Closes a host: drops it, if it is live, and says whether it was. Takes no memory.
    pub fn close(&mut self, host: usize) -> bool
        requires { host < length (set_state heard self.old).hosts }
        ensures was_live { result ≡ is_live_at (set_state heard self.old).hosts host }
        ensures closed { set_state heard self.new ≡ closed (set_state heard self.old) host }
        ensures others { (other : ℕ) (before : List Exchange) → other ≢ host → HostHears hears self.old other before → HostHears hears self.new other before }
    {
        let slot = &mut self.hosts[host];
        let was_live = slot.is_live();
        slot.close();
        was_live
    }
}
