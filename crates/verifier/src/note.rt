// What is known of the registers before a word.
ghost use Rattle.std.specs.Prelude.{◌≡◌, ◌≤◌, ◌<◌, ◌==◌, nat_le, Some, false, IsTrue, IfNone, IfSome};
ghost use Rattle.verifier.specs.Registers.{meant, meant_in, room, room_in, most_room, hit, capturing, letting_go, preparing, Alike, IsEmpty};
ghost use Rattle.verifier.specs.Least.{Joins, JoinsIn};

use crate::registers::RegisterSet;

/// What is known of the registers before a word: those that are surely not captured, and the loops whose
/// three registers surely hold numbers and are not captured.
#[derive(Clone, Copy, Debug, PartialEq, Eq)]
pub struct Note {
    free: RegisterSet,
    loops: RegisterSet,
}

impl Note {
    /// The note before the first word: nothing is captured, and there is no loop.
    pub fn start() -> Note
        ensures { IsEmpty result }
    {
        Note {
            free: RegisterSet::below(512),
            loops: RegisterSet::below(0),
        }
    }

    /// Whether a register below 512 may be captured.
    pub fn may_be_captured(self, register: u32) -> bool
        ensures { result ≡ (meant self).captured register }
    {
        register < 512 && !self.free.holds(register)
    }

    /// Whether a register surely is the first of a loop's.
    pub fn has_loop(self, register: u32) -> bool
        ensures { result ≡ (meant self).loops register }
    {
        self.loops.holds(register)
    }

    /// The note where the registers from the first on that are below the end were written.
    pub fn hit(self, first: u32, end: u32) -> Note
        ensures { Alike (meant result) (hit first end (meant self)) }
    {
        if first >= end {
            return self;
        }
        let lost = RegisterSet::range(first.saturating_sub(2), end);
        Note {
            free: self.free,
            loops: self.loops.without(lost),
        }
    }

    /// The note where a register was captured.
    pub fn captured(self, register: u32) -> Note
        requires small { register < 512 }
        ensures { Alike (meant result) (capturing register (meant self)) }
    {
        let note = self.hit(register, register + 1);
        Note {
            free: note
                .free
                .without(RegisterSet::range(register, register + 1)),
            loops: note.loops,
        }
    }

    /// The note where the registers from the first on were let go.
    pub fn let_go(self, first: u32) -> Note
        ensures { Alike (meant result) (letting_go (nat_le first) (meant self)) }
    {
        Note {
            free: self.free.either(RegisterSet::range(first, 512)),
            loops: self.loops,
        }
    }

    /// The note where a loop was prepared.
    pub fn prepared(self, register: u32) -> Note
        requires small { register < 512 }
        ensures { Alike (meant result) (preparing (λ a. a == register) (meant self)) }
    {
        let made = RegisterSet::range(register, register + 1);
        Note {
            free: self.free,
            loops: self.loops.either(made),
        }
    }

    /// What a note has to lose is bounded. A law, with nothing to run.
    fn bound(self)
        ensures { room self < most_room }
    {
        self.free.bound();
        self.loops.bound();
    }

    /// The note where two ways meet.
    fn joined(self, new: Note) -> Note
        ensures joins { Joins (Some (meant self)) (meant new) (meant result) }
        ensures less { room result ≤ room self }
        ensures same { room result ≡ room self → result ≡ self }
    {
        Note {
            free: self.free.both(new.free),
            loops: self.loops.both(new.loops),
        }
    }

    /// Whether both ask the same.
    fn asks(self, other: Note) -> bool
        ensures one { IsTrue result → self ≡ other }
        ensures two { result ≡ false → self ≡ other → ⊥ }
    {
        self == other
    }

    /// The note where a way comes to a place, if it asks more than the one that is there.
    pub fn met(old: Option<Note>, new: Note) -> Option<Note>
        ensures none { IfNone result (JoinsIn (meant_in old) (meant new) (meant_in old)) }
        ensures joins { IfSome result (λ k. Joins (meant_in old) (meant new) (meant k)) }
        ensures less { IfSome result (λ k. room k < room_in old) }
    {
        match old {
            Some(old) => {
                let joined = old.joined(new);
                if joined.asks(old) { None } else { Some(joined) }
            }
            None => {
                new.bound();
                Some(new)
            }
        }
    }
}
