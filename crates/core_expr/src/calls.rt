// Calls, and their arguments.
ghost use Rattle.std.specs.Prelude.{◌≡◌, true, false, option_map, IfOk, OnSome, OnOk, Err};
ghost use Rattle.core_expr.specs.Held.{view_written_args};
ghost use Rattle.core_expr.specs.Standing.{view_writer, behind, behind_values, behind_short, behind_arguments, worded, worded_arguments, worded_short, worded_only, can_word, can_word_values};
ghost use Rattle.core_expr.specs.Values.{view_core, view_core_list, values_of, constant_value, call_value, method_value};
ghost use Rattle.core_expr.specs.Writing.{view_written};
ghost use Rattle.core_expr.specs.declared.fault.CoreFault.TheVariants.{NotScheme};

use crate::cores::{Core, Cores};
use crate::fault::CoreFault;
use crate::nodes::{WrittenArgs, call, copied, listed, method, tabled};
use crate::scope::Written;
use crate::writer::Writer;
use lua_tree::Args;

impl Writer<'_> {
    /// A call.
    #[cycle(writing)]
    pub fn call(&mut self, on: &Core, args: &Cores, open: bool) -> Result<Written, CoreFault>
        ensures made { IfOk result (λ written. view_written written ≡ worded (view_writer self.old) (call_value (view_core on.now) (view_core_list args.now) «open» 0)) }
        ensures behind { OnOk result (view_writer self.new ≡ behind (call_value (view_core on.now) (view_core_list args.now) «open» 0) (view_writer self.old)) }
        ensures refused { result ≡ Err NotScheme → can_word (view_writer self.old) (call_value (view_core on.now) (view_core_list args.now) «open» 0) ≡ false }
        ensures able { OnOk result (can_word (view_writer self.old) (call_value (view_core on.now) (view_core_list args.now) «open» 0) ≡ true) }
    {
        let on = self.prefix(on)?;
        let args = self.arguments(args, open)?;
        Ok(call(self.alloc, on, args)?)
    }

    /// A call of a method, by the constant that is its name.
    #[cycle(writing)]
    pub fn method(
        &mut self,
        on: &Core,
        name: u32,
        args: &Cores,
        open: bool,
    ) -> Result<Written, CoreFault>
        ensures made { IfOk result (λ written. view_written written ≡ worded (view_writer self.old) (method_value (view_core on.now) name (view_core_list args.now) «open» 0)) }
        ensures behind { OnOk result (view_writer self.new ≡ behind (method_value (view_core on.now) name (view_core_list args.now) «open» 0) (view_writer self.old)) }
        ensures refused { result ≡ Err NotScheme → can_word (view_writer self.old) (method_value (view_core on.now) name (view_core_list args.now) «open» 0) ≡ false }
        ensures able { OnOk result (can_word (view_writer self.old) (method_value (view_core on.now) name (view_core_list args.now) «open» 0) ≡ true) }
    {
        let on = self.prefix(on)?;
        let Some(text) = self.scope.constant_name(name) else {
            return Err(CoreFault::NotScheme);
        };
        self.take_constant(name);
        let args = self.arguments(args, open)?;
        Ok(method(self.alloc, on, text, args)?)
    }

    // The arguments of a call.
    #[cycle(writing)]
    fn arguments(&mut self, args: &Cores, open: bool) -> Result<WrittenArgs, CoreFault>
        ensures made { IfOk result (λ written. view_written_args written ≡ worded_arguments (view_writer self.old) (view_core_list args.now) «open») }
        ensures behind { OnOk result (view_writer self.new ≡ behind_values (view_core_list args.now) (view_writer self.old)) }
        ensures refused { result ≡ Err NotScheme → can_word_values (view_writer self.old) (view_core_list args.now) ≡ false }
        ensures able { OnOk result (can_word_values (view_writer self.old) (view_core_list args.now) ≡ true) }
    {
        let items = args.items();
        if let Some(short) = self.short_arguments(items, open)? {
            return Ok(short);
        }
        let list = self.list(items, open)?;
        Ok(listed(list))
    }

    // The arguments without parentheses, where that is asked for and they are one string or constructor.
    #[cycle(writing)]
    fn short_arguments(
        &mut self,
        args: &[Core],
        open: bool,
    ) -> Result<Option<WrittenArgs>, CoreFault>
        ensures made { IfOk result (λ written. option_map view_written_args written ≡ worded_short (view_writer self.old) (values_of args.now) «open») }
        ensures behind { OnOk result (view_writer self.new ≡ behind_arguments (worded_short (view_writer self.old) (values_of args.now) «open») (values_of args.now) (view_writer self.old)) }
        ensures refused { result ≡ Err NotScheme → can_word_values (view_writer self.old) (values_of args.now) ≡ false }
        ensures able { IfOk result (λ written. OnSome written (can_word_values (view_writer self.old) (values_of args.now) ≡ true)) }
    {
        if open {
            return Ok(None);
        }
        if !self.scope.short {
            return Ok(None);
        }
        if args.len() != 1 {
            return Ok(None);
        }
        self.short_argument(&args[0])
    }

    // The only argument as one without parentheses, where it is a string or a constructor.
    #[cycle(writing)]
    fn short_argument(&mut self, only: &Core) -> Result<Option<WrittenArgs>, CoreFault>
        ensures made { IfOk result (λ written. option_map view_written_args written ≡ worded_only (view_writer self.old) (view_core only.now)) }
        ensures behind { OnOk result (view_writer self.new ≡ behind_short (worded_only (view_writer self.old) (view_core only.now)) (view_core only.now) (view_writer self.old)) }
        ensures refused { result ≡ Err NotScheme → can_word (view_writer self.old) (view_core only.now) ≡ false }
        ensures able { IfOk result (λ written. OnSome written (can_word (view_writer self.old) (view_core only.now) ≡ true)) }
    {
        match only {
            Core::Constant(number) => self.short_text(*number),
            Core::Table { items, open, .. } => {
                let items = self.items(items, *open)?;
                Ok(Some(tabled(items)))
            }
            _ => Ok(None),
        }
    }

    // A constant as an argument without parentheses, where it is a string.
    #[tactic(auto, unfolding(crate::specs::Standing::view_writer))]
    fn short_text(&mut self, number: u32) -> Result<Option<WrittenArgs>, CoreFault>
        ensures made { IfOk result (λ written. option_map view_written_args written ≡ worded_only (view_writer self.old) (constant_value number)) }
        ensures behind { OnOk result (view_writer self.new ≡ behind_short (worded_only (view_writer self.old) (constant_value number)) (constant_value number) (view_writer self.old)) }
        ensures refused { result ≡ Err NotScheme → can_word (view_writer self.old) (constant_value number) ≡ false }
        ensures able { IfOk result (λ written. OnSome written (can_word (view_writer self.old) (constant_value number) ≡ true)) }
    {
        let Some(text) = self.scope.text(number) else {
            return Ok(None);
        };
        self.take_constant(number);
        let text = copied(self.alloc, text)?;
        Ok(Some(WrittenArgs {
            args: Args::Text(text),
            levels: 0,
        }))
    }
}
