// The expressions of values and operands.
ghost use Rattle.std.specs.Prelude.{◌≡◌, ◌&&◌, not, true, false, IfOk, OnOk, Err};
ghost use Rattle.core_expr.specs.Places.{field_name};
ghost use Rattle.core_expr.specs.Standing.{view_writer, behind, behind_values, behind_operand, worded, worded_values, worded_operand, can_word, can_word_values, can_word_operand};
ghost use Rattle.core_expr.specs.Values.{view_core, view_operand, view_core_list, view_operand_list, values_of, index_value, binary_value, unary_value, concat_value};
ghost use Rattle.core_expr.specs.Writing.{as_value, as_prefix, with_key, view_written, view_written_list};
ghost use Rattle.core_expr.specs.declared.fault.CoreFault.TheVariants.{NotScheme};

use crate::cores::{Core, Cores, Operand, Operands};
use crate::fault::CoreFault;
use crate::nodes::{field, index, nil, parenthesized, truth, vararg};
use crate::operators::{applied, chained, joined};
use crate::scope::{Variable, Written, WrittenList};
use crate::writer::Writer;
use lua_tree::{BinaryOp, UnaryOp};
use well_formed::is_prefix;

// How many keys a tree can have one behind the other.
const MOST_KEYS: usize = 200;

impl Writer<'_> {
    /// The expression of a value.
    #[cycle(writing)]
    pub fn expression(&mut self, core: &Core) -> Result<Written, CoreFault>
        ensures made { IfOk result (λ written. view_written written ≡ worded (view_writer self.old) (view_core core.now)) }
        ensures behind { OnOk result (view_writer self.new ≡ behind (view_core core.now) (view_writer self.old)) }
        ensures refused { result ≡ Err NotScheme → can_word (view_writer self.old) (view_core core.now) ≡ false }
        ensures able { OnOk result (can_word (view_writer self.old) (view_core core.now) ≡ true) }
    {
        match core {
            Core::Nil => Ok(nil(self.alloc)?),
            Core::Bool(value) => Ok(truth(self.alloc, *value)?),
            Core::Constant(number) => self.constant(*number),
            Core::Local(register) => self.variable(Variable::Local(*register)),
            Core::Upvalue(number) => self.variable(Variable::Upvalue(*number)),
            Core::Global(number) => self.global(*number),
            Core::Vararg => Ok(vararg(self.alloc)?),
            Core::Index { on, keys, .. } => self.indexed(on, keys),
            Core::Binary {
                op,
                left,
                right,
                ..
            } => self.binary(*op, left, right),
            Core::Unary { op, of, .. } => self.unary(*op, of),
            Core::Concat { operands, .. } => self.concat(operands),
            Core::Call { on, args, open, .. } => self.call(on, args, *open),
            Core::Method {
                on,
                name,
                args,
                open,
                ..
            } => self.method(on, *name, args, *open),
            Core::Table { items, open, .. } => self.table(items, *open),
            Core::Function {
                number,
                captures_itself,
            } => self.function(*number, *captures_itself),
        }
    }

    /// The expression of a value. Where only one is wanted of a call or `...`, it stands in parentheses.
    #[cycle(writing)]
    pub fn value(&mut self, core: &Core, only_one: bool) -> Result<Written, CoreFault>
        ensures made { IfOk result (λ written. view_written written ≡ as_value only_one (view_core core.now) (worded (view_writer self.old) (view_core core.now))) }
        ensures behind { OnOk result (view_writer self.new ≡ behind (view_core core.now) (view_writer self.old)) }
        ensures refused { result ≡ Err NotScheme → can_word (view_writer self.old) (view_core core.now) ≡ false }
        ensures able { OnOk result (can_word (view_writer self.old) (view_core core.now) ≡ true) }
    {
        let written = self.expression(core)?;
        if only_one && core.is_multiple() {
            Ok(parenthesized(self.alloc, written)?)
        } else {
            Ok(written)
        }
    }

    /// The expressions of values; where they are not open, only one is wanted of the last.
    #[cycle(writing)]
    pub fn list(&mut self, cores: &[Core], open: bool) -> Result<WrittenList, CoreFault>
        ensures made { IfOk result (λ written. view_written_list written ≡ worded_values (view_writer self.old) (values_of cores.now) «open») }
        ensures behind { OnOk result (view_writer self.new ≡ behind_values (values_of cores.now) (view_writer self.old)) }
        ensures refused { result ≡ Err NotScheme → can_word_values (view_writer self.old) (values_of cores.now) ≡ false }
        ensures able { OnOk result (can_word_values (view_writer self.old) (values_of cores.now) ≡ true) }
    {
        let mut list = WrittenList::new(self.alloc);
        for (i, core) in cores.iter().enumerate() {
            let is_last = i + 1 == cores.len();
            let written = self.value(core, wants_one(is_last, open))?;
            list.push(written)?;
        }
        Ok(list)
    }

    /// The expression of a value that is indexed or called.
    #[cycle(writing)]
    pub fn prefix(&mut self, core: &Core) -> Result<Written, CoreFault>
        ensures made { IfOk result (λ written. view_written written ≡ as_prefix (worded (view_writer self.old) (view_core core.now))) }
        ensures behind { OnOk result (view_writer self.new ≡ behind (view_core core.now) (view_writer self.old)) }
        ensures refused { result ≡ Err NotScheme → can_word (view_writer self.old) (view_core core.now) ≡ false }
        ensures able { OnOk result (can_word (view_writer self.old) (view_core core.now) ≡ true) }
    {
        let written = self.expression(core)?;
        if is_prefix(&written.exp) {
            Ok(written)
        } else {
            Ok(parenthesized(self.alloc, written)?)
        }
    }

    // A value with a chain of keys behind it.
    #[cycle(writing)]
    fn indexed(&mut self, on: &Core, keys: &Operands) -> Result<Written, CoreFault>
        ensures made { IfOk result (λ written. view_written written ≡ worded (view_writer self.old) (index_value (view_core on.now) (view_operand_list keys.now) 0)) }
        ensures behind { OnOk result (view_writer self.new ≡ behind (index_value (view_core on.now) (view_operand_list keys.now) 0) (view_writer self.old)) }
        ensures refused { result ≡ Err NotScheme → can_word (view_writer self.old) (index_value (view_core on.now) (view_operand_list keys.now) 0) ≡ false }
        ensures able { OnOk result (can_word (view_writer self.old) (index_value (view_core on.now) (view_operand_list keys.now) 0) ≡ true) }
    {
        if keys.items().len() > MOST_KEYS {
            return Err(CoreFault::NotScheme);
        }
        let mut written = self.prefix(on)?;
        for key in keys.items() {
            written = self.with_key(written, key)?;
        }
        Ok(written)
    }

    /// An expression with a key behind it.
    #[cycle(writing)]
    pub fn with_key(&mut self, on: Written, key: &Operand) -> Result<Written, CoreFault>
        ensures made { IfOk result (λ written. view_written written ≡ with_key (field_name (view_writer self.old).at (view_operand key.now)) (view_written on) (worded_operand (view_writer self.old) (view_operand key.now))) }
        ensures behind { OnOk result (view_writer self.new ≡ behind_operand (view_operand key.now) (view_writer self.old)) }
        ensures refused { result ≡ Err NotScheme → can_word_operand (view_writer self.old) (view_operand key.now) ≡ false }
        ensures able { OnOk result (can_word_operand (view_writer self.old) (view_operand key.now) ≡ true) }
    {
        if let Some((number, name)) = self.scope.field_name(key) {
            self.take_constant(number);
            return Ok(field(self.alloc, on, name)?);
        }
        let key = self.operand(key)?;
        Ok(index(self.alloc, on, key)?)
    }

    /// The expression of an operand, in parentheses where it would not have gone to its register else.
    #[cycle(writing)]
    pub fn operand(&mut self, operand: &Operand) -> Result<Written, CoreFault>
        ensures made { IfOk result (λ written. view_written written ≡ worded_operand (view_writer self.old) (view_operand operand.now)) }
        ensures behind { OnOk result (view_writer self.new ≡ behind_operand (view_operand operand.now) (view_writer self.old)) }
        ensures refused { result ≡ Err NotScheme → can_word_operand (view_writer self.old) (view_operand operand.now) ≡ false }
        ensures able { OnOk result (can_word_operand (view_writer self.old) (view_operand operand.now) ≡ true) }
    {
        match operand {
            Operand::Constant(number) => self.constant(*number),
            Operand::Value(core) => {
                let is_bare = self.is_bare(core);
                let written = self.expression(core)?;
                if is_bare {
                    Ok(written)
                } else {
                    Ok(parenthesized(self.alloc, written)?)
                }
            }
        }
    }

    /// An operator between two operands.
    #[cycle(writing)]
    pub fn binary(
        &mut self,
        op: BinaryOp,
        left: &Operand,
        right: &Operand,
    ) -> Result<Written, CoreFault>
        ensures made { IfOk result (λ written. view_written written ≡ worded (view_writer self.old) (binary_value op (view_operand left.now) (view_operand right.now) 0)) }
        ensures behind { OnOk result (view_writer self.new ≡ behind (binary_value op (view_operand left.now) (view_operand right.now) 0) (view_writer self.old)) }
        ensures refused { result ≡ Err NotScheme → can_word (view_writer self.old) (binary_value op (view_operand left.now) (view_operand right.now) 0) ≡ false }
        ensures able { OnOk result (can_word (view_writer self.old) (binary_value op (view_operand left.now) (view_operand right.now) 0) ≡ true) }
    {
        let left = self.operand(left)?;
        let right = self.operand(right)?;
        Ok(joined(self.alloc, op, left, right)?)
    }

    // An operator before an operand.
    #[cycle(writing)]
    fn unary(&mut self, op: UnaryOp, of: &Core) -> Result<Written, CoreFault>
        ensures made { IfOk result (λ written. view_written written ≡ worded (view_writer self.old) (unary_value op (view_core of.now) 0)) }
        ensures behind { OnOk result (view_writer self.new ≡ behind (unary_value op (view_core of.now) 0) (view_writer self.old)) }
        ensures refused { result ≡ Err NotScheme → can_word (view_writer self.old) (unary_value op (view_core of.now) 0) ≡ false }
        ensures able { OnOk result (can_word (view_writer self.old) (unary_value op (view_core of.now) 0) ≡ true) }
    {
        let of = self.expression(of)?;
        Ok(applied(self.alloc, op, of)?)
    }

    // Values joined by `..`.
    #[cycle(writing)]
    fn concat(&mut self, operands: &Cores) -> Result<Written, CoreFault>
        ensures made { IfOk result (λ written. view_written written ≡ worded (view_writer self.old) (concat_value (view_core_list operands.now) 0)) }
        ensures behind { OnOk result (view_writer self.new ≡ behind (concat_value (view_core_list operands.now) 0) (view_writer self.old)) }
        ensures refused { result ≡ Err NotScheme → can_word (view_writer self.old) (concat_value (view_core_list operands.now) 0) ≡ false }
        ensures able { OnOk result (can_word (view_writer self.old) (concat_value (view_core_list operands.now) 0) ≡ true) }
    {
        let mut written = Vec::new(self.alloc);
        for operand in operands.items() {
            let operand = self.expression(operand)?;
            written.push(operand)?;
        }
        chained(self.alloc, written)
    }
}

/// Whether only one value is wanted of an item of a list: of the last one, where the list is not open.
pub fn wants_one(is_last: bool, open: bool) -> bool
    ensures { result ≡ (is_last && not «open») }
{
    is_last && !open
}
