// The scopes of a tree.
ghost use Rattle.std.specs.Prelude.{◌≡◌, ◌⊎◌, IfOk, IfErr};
ghost use Rattle.lua_tree.specs.View.{view_tree};
ghost use Rattle.lua_tree.specs.Scoping.{Scoped};
ghost use Rattle.lua_tree.specs.Resolved.{resolved};
ghost use Rattle.scopes.specs.Faults.{IsFaultOf, StopsBy};
ghost use Rattle.scopes.specs.declared.fault.ScopeFault.{ScopeFault as OneFault};

use crate::fault::ScopeFault;
use crate::resolver::{Here, Resolver};
use crate::uses::Scopes;
use lua_tree::Tree;
use std::alloc::Global;

/// What each name of a tree means, which locals are captured, and the upvalues of its functions; or the
/// first place where the tree breaks a rule of scoping. (Manual 2.6; at most 200 active locals and 60
/// upvalues a function.) A name is looked up among those in scope, at most 200 for each function around
/// it, so the time is about linear in the tree.
pub fn resolve(alloc: Global, tree: &Tree) -> Result<Scopes, ScopeFault>
    ensures scoped { IfOk result (λ _. Scoped (view_tree tree.now)) }
    ensures scopes { IfOk result (λ scopes. scopes ≡ resolved (view_tree tree.now)) }
    ensures fault { IfErr result (StopsBy (view_tree tree.now)) }

    // One answer is left for each tree, and want of memory.
    ensures only_scopes { Scoped (view_tree tree.now) → (result ≡ Ok (resolved (view_tree tree.now))) ⊎ (result ≡ Err ScopeFault.OutOfMemory) }
    ensures only_fault { (fault : OneFault) → IsFaultOf (view_tree tree.now) fault → (result ≡ Err fault) ⊎ (result ≡ Err ScopeFault.OutOfMemory) }
{
    resolve_tree(alloc, tree)
}

fn resolve_tree(alloc: Global, tree: &Tree) -> Result<Scopes, ScopeFault>
    ensures scoped { IfOk result (λ _. Scoped (view_tree tree.now)) }
    ensures scopes { IfOk result (λ scopes. scopes ≡ resolved (view_tree tree.now)) }
    ensures fault { IfErr result (StopsBy (view_tree tree.now)) }
{
    let mut resolver = Resolver {
        locals: Vec::new(alloc),
        stack: Vec::new(alloc),
        here: Here {
            vararg: true,
            looped: false,
            active: 0,
        },
        names: Vec::new(alloc),
        captured: Vec::new(alloc),
        functions: Vec::new(alloc),
    };
    resolver.open(alloc, true)?;
    resolver.statements(alloc, &tree.body)?;
    Ok(Scopes::new(resolver.names, resolver.captured, resolver.functions))
}
