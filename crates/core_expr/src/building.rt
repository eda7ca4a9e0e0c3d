// Making values that have parts, each with its depth.
ghost use Rattle.std.specs.Prelude.{◌≡◌, ℕ, Some, None, IfOk, Err};
ghost use Rattle.core_expr.specs.Held.{depth_of_item};
ghost use Rattle.core_expr.specs.Making.{depth_of, depth_of_operand, deepest, deepest_item, made_over, made_index, made_binary, made_unary, made_concat, made_call, made_method, made_table};
ghost use Rattle.core_expr.specs.Values.{Value, view_core, view_operand, view_core_list, view_item_list, values_of, items_of};
ghost use Rattle.core_expr.specs.declared.fault.CoreFault.TheVariants.{NotScheme};

use crate::cores::{Core, CoreItem, CoreItems, Cores, Operand, Operands};
use crate::fault::CoreFault;
use lua_tree::{BinaryOp, UnaryOp};
use std::alloc::{AllocError, Global};

// How deep a value may be: a tree has 200 levels, and a call of one constructor is two values for one level.
const MOST_DEPTH: u32 = 400;

impl Core {
    /// How deep it is: 1 for what has no parts.
    pub fn depth(&self) -> u32
        ensures { result ≡ depth_of (view_core self.now) }
    {
        match self {
            Core::Index { depth, .. }
            | Core::Binary { depth, .. }
            | Core::Unary { depth, .. }
            | Core::Concat { depth, .. }
            | Core::Call { depth, .. }
            | Core::Method { depth, .. }
            | Core::Table { depth, .. } => *depth,
            Core::Nil
            | Core::Bool(_)
            | Core::Constant(_)
            | Core::Local(_)
            | Core::Upvalue(_)
            | Core::Global(_)
            | Core::Vararg
            | Core::Function { .. } => 1,
        }
    }

    /// `on[key]`, or one key more where `on` is a chain of keys already.
    pub fn index(alloc: Global, on: Core, key: Operand) -> Result<Core, CoreFault>
        ensures made { IfOk result (λ core. Some (view_core core) ≡ made_index (view_core on) (view_operand key)) }
        ensures refused { result ≡ Err NotScheme → made_index (view_core on) (view_operand key) ≡ None }
    {
        match on {
            Core::Index {
                on,
                mut keys,
                depth,
            } => {
                let depth = depth.max(depth_over(key.depth())?);
                keys.push(key)?;
                Ok(Core::Index { on, keys, depth })
            }
            on => {
                let depth = depth_over(on.depth().max(key.depth()))?;
                let mut keys = Operands::new(alloc);
                keys.push(key)?;
                let on = boxed(alloc, on)?;
                Ok(Core::Index { on, keys, depth })
            }
        }
    }

    /// An operator of arithmetic between two operands.
    pub fn binary(
        alloc: Global,
        op: BinaryOp,
        left: Operand,
        right: Operand,
    ) -> Result<Core, CoreFault>
        ensures made { IfOk result (λ core. Some (view_core core) ≡ made_binary op (view_operand left) (view_operand right)) }
        ensures refused { result ≡ Err NotScheme → made_binary op (view_operand left) (view_operand right) ≡ None }
    {
        let depth = depth_over(left.depth().max(right.depth()))?;
        Ok(Core::Binary {
            op,
            left: boxed_operand(alloc, left)?,
            right: boxed_operand(alloc, right)?,
            depth,
        })
    }

    /// An operator before a value.
    pub fn unary(alloc: Global, op: UnaryOp, of: Core) -> Result<Core, CoreFault>
        ensures made { IfOk result (λ core. Some (view_core core) ≡ made_unary op (view_core of)) }
        ensures refused { result ≡ Err NotScheme → made_unary op (view_core of) ≡ None }
    {
        let depth = depth_over(of.depth())?;
        let of = boxed(alloc, of)?;
        Ok(Core::Unary { op, of, depth })
    }

    /// Values joined by `..`.
    pub fn concat(operands: Cores) -> Result<Core, CoreFault>
        ensures made { IfOk result (λ core. Some (view_core core) ≡ made_concat (view_core_list operands)) }
        ensures refused { result ≡ Err NotScheme → made_concat (view_core_list operands) ≡ None }
    {
        let depth = depth_over(deepest(operands.items()))?;
        Ok(Core::Concat { operands, depth })
    }

    /// A call; `open` where the last argument gives all its values.
    pub fn call(alloc: Global, on: Core, args: Cores, open: bool) -> Result<Core, CoreFault>
        ensures made { IfOk result (λ core. Some (view_core core) ≡ made_call (view_core on) (view_core_list args) «open») }
        ensures refused { result ≡ Err NotScheme → made_call (view_core on) (view_core_list args) «open» ≡ None }
    {
        let depth = depth_over(on.depth().max(deepest(args.items())))?;
        let on = boxed(alloc, on)?;
        Ok(Core::Call {
            on,
            args,
            open,
            depth,
        })
    }

    /// A call of a method, whose name is a constant; `open` where the last argument gives all its values.
    pub fn method(
        alloc: Global,
        on: Core,
        name: u32,
        args: Cores,
        open: bool,
    ) -> Result<Core, CoreFault>
        ensures made { IfOk result (λ core. Some (view_core core) ≡ made_method (view_core on) name (view_core_list args) «open») }
        ensures refused { result ≡ Err NotScheme → made_method (view_core on) name (view_core_list args) «open» ≡ None }
    {
        let depth = depth_over(on.depth().max(deepest(args.items())))?;
        let on = boxed(alloc, on)?;
        Ok(Core::Method {
            on,
            name,
            args,
            open,
            depth,
        })
    }

    /// A constructor; `open` where the last item gives all its values.
    pub fn table(items: CoreItems, open: bool) -> Result<Core, CoreFault>
        ensures made { IfOk result (λ core. Some (view_core core) ≡ made_table (view_item_list items) «open») }
        ensures refused { result ≡ Err NotScheme → made_table (view_item_list items) «open» ≡ None }
    {
        let depth = depth_over(deepest_item(items.items()))?;
        Ok(Core::Table { items, open, depth })
    }
}

impl Operand {
    // How deep it is: 1 for a constant.
    fn depth(&self) -> u32
        ensures { result ≡ depth_of_operand (view_operand self.now) }
    {
        match self {
            Operand::Constant(_) => 1,
            Operand::Value(core) => core.depth(),
        }
    }
}

impl CoreItem {
    // How deep the deepest part of it is.
    fn depth(&self) -> u32
        ensures { result ≡ depth_of_item self.now }
    {
        match self {
            CoreItem::Positional(core) => core.depth(),
            CoreItem::Keyed(key, value) => key.depth().max(value.depth()),
        }
    }
}

// The depth of a value whose deepest part is so deep, where a tree can be as deep.
fn depth_over(deepest: u32) -> Result<u32, CoreFault>
    ensures made { IfOk result (λ depth. (make : ℕ → Value) → Some (make depth) ≡ made_over deepest make) }
    ensures refused { result ≡ Err NotScheme → (make : ℕ → Value) → made_over deepest make ≡ None }
{
    if deepest < MOST_DEPTH {
        Ok(deepest + 1)
    } else {
        Err(CoreFault::NotScheme)
    }
}

// How deep the deepest of some values is, or 0.
fn deepest(cores: &[Core]) -> u32
    ensures { result ≡ deepest (values_of cores.now) }
{
    let mut deepest = 0;
    for core in cores {
        deepest = core.depth().max(deepest);
    }
    deepest
}

// How deep the deepest part of some items is, or 0.
fn deepest_item(items: &[CoreItem]) -> u32
    ensures { result ≡ deepest_item (items_of items.now) }
{
    let mut deepest = 0;
    for item in items {
        deepest = item.depth().max(deepest);
    }
    deepest
}

fn boxed(alloc: Global, core: Core) -> Result<Box<Core>, AllocError>
    ensures { IfOk result (λ place. place.value ≡ core) }
{
    let core = Box::new(alloc, core)?;
    Ok(core)
}

fn boxed_operand(alloc: Global, operand: Operand) -> Result<Box<Operand>, AllocError>
    ensures { IfOk result (λ place. place.value ≡ operand) }
{
    let operand = Box::new(alloc, operand)?;
    Ok(operand)
}
