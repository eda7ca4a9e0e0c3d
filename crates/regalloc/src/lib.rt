//! The registers of a function that is being made.
#![tactic(auto)]

ghost use Rattle.std.specs.Prelude.{◌≡◌, ◌+◌, ◌<◌, ◌≤◌, ◌↔◌, max, IfOk, OnOk, IfErr, OnErr, IsErr};

use std::marker::Model;
use thiserror::Error;

/// How many registers a function may take.
const MOST_REGISTERS: u64 = 250;

/// A function takes this many registers, which is above 250.
#[derive(Clone, Copy, Debug, PartialEq, Eq, Error)]
#[error("too many registers")]
pub struct TooMany {
    pub reached: u64,
}

/// Registers of one function: the next free one and the highest number in use. No call takes memory.
#[derive(Drop)]
pub struct Regs {
    next: u32,
    high: u32,
}

impl Model for Regs {
    ghost use Rattle.std.specs.Prelude.{◌≤◌};
    ghost use Rattle.regalloc.specs.Registers.{Registers};

    ghost Value = { Registers };

    ghost view = { λ r. record { next = r.next; high = r.high } };

    ghost invariant = { λ r. (r.next ≤ r.high) × (r.high ≤ 250) };
}

impl Regs {
    /// So many registers are in use.
    pub fn new(active: u32) -> Regs
        requires { active ≤ 250 }
        ensures { result ≡ record { next = active; high = active } }
    {
        Regs {
            next: active,
            high: active,
        }
    }

    /// The first of n registers that are taken. Fails exactly where they pass 250, with the number that they reach; the registers are
    /// then as they were.
    pub fn reserve(&mut self, n: u32) -> Result<u32, TooMany>
        ensures first { IfOk result (λ first. first ≡ self.old.next) }
        ensures next { OnOk result (self.new.next ≡ self.old.next + n) }
        ensures high { OnOk result (self.new.high ≡ max self.old.high (self.old.next + n)) }
        ensures refused { IsErr result ↔ (250 < self.old.next + n) }
        ensures reached { IfErr result (λ fault. fault.reached ≡ self.old.next + n) }
        ensures err { OnErr result (self.new ≡ self.old) }
    {
        let reached = u64::from(self.next) + u64::from(n);
        if reached > MOST_REGISTERS {
            return Err(TooMany { reached });
        }
        let first = self.next;
        self.next = reached as u32;
        self.high = self.high.max(self.next);
        Ok(first)
    }

    /// The registers from this one on are free.
    pub fn free(&mut self, to: u32)
        requires { to ≤ self.old.next }
        ensures next { self.new.next ≡ to }
        ensures high { self.new.high ≡ self.old.high }
    {
        self.next = to;
    }

    /// The next free register.
    pub fn next(&self) -> u32
        ensures next { result ≡ self.now.next }
        ensures used { result ≤ self.now.high }
    {
        self.next
    }

    /// The highest number of registers in use so far.
    pub fn high(&self) -> u32
        ensures high { result ≡ self.now.high }
        ensures within { result ≤ 250 }
    {
        self.high
    }
}
