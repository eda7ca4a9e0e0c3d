// The functions that stand in one, as source.
ghost use Rattle.std.specs.Prelude.{◌≡◌, [], ◌∷◌, ◌++◌, Some, None, OnOk, slice_set};
ghost use Rattle.core_expr.specs.Values.{view_recovered, view_left, view_bodies};
ghost use Rattle.core_expr.specs.Writing.{function_left};

use lua_tree::Body;
use std::alloc::{AllocError, Global};

/// A function as source, and how many levels the statements in it need.
#[derive(Drop)]
pub struct Recovered {
    pub body: Body,
    pub levels: u32,
}

/// The functions that stand directly in one, by their numbers. Each is taken once, since each stands in one place of the source.
#[derive(Drop)]
pub struct Bodies {
    bodies: Vec<Option<Recovered>>,
}

impl Bodies {
    /// No functions, which takes no memory.
    pub fn new(alloc: Global) -> Self
        ensures { view_bodies result ≡ [] }
    {
        Self {
            bodies: Vec::new(alloc),
        }
    }

    /// Appends a function.
    pub fn push(&mut self, body: Recovered) -> Result<(), AllocError>
        ensures { OnOk result (view_bodies self.new ≡ view_bodies self.old ++ Some (view_recovered body) ∷ []) }
    {
        self.bodies.push(Some(body))?;
        Ok(())
    }

    /// Takes the function of a number, where it is still there.
    pub fn take(&mut self, number: u32) -> Option<Recovered>
        ensures taken { view_left result ≡ function_left (view_bodies self.old) number }
        ensures left { view_bodies self.new ≡ slice_set (view_bodies self.old) number None }
    {
        self.bodies.get_mut(number as usize)?.take()
    }
}
