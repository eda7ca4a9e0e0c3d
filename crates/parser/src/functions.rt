// Functions and locals (manual 2.4.7 and 2.5.9).
ghost use Rattle.std.specs.Prelude.{◌≡◌, ◌+◌, ◌≤◌, ◌<◌, length, IfOk, IfErr};
ghost use Rattle.lua_tree.specs.View.{view_statement, view_body, view_exps};
ghost use Rattle.lua_tree.specs.WellFormed.{depth_of_statement, depth_of_body, depth_of_expressions};
ghost use Rattle.parser.specs.Marks.{kind_of_mark};
ghost use Rattle.parser.specs.Program.{body, function_of, local_of, local_function_of, local_names_of, values, parameters, method_name};
ghost use Rattle.parser.specs.Finds.{Finds, Refuses, FindsNames, RefusesNames, parameters_of};

use crate::cursor::{Cursor, Halt};
use crate::mark::Mark;
use crate::tall::Tall;
use lua_num::{ByteText, Names};
use lua_tree::{Body, Exps, StatKind};
use std::alloc::Global;

/// The names of parameters, and whether `...` follows them.
#[derive(Drop)]
pub struct Parameters {
    pub names: Names,
    pub vararg: bool,
}

impl Cursor<'_> {
    /// A function's parameters and block, behind a `function` on a line.
    #[cycle(parser)]
    pub fn body(&mut self, alloc: Global, depth: usize, line: u32) -> Result<Tall<Body>, Halt>
        requires { depth ≤ 200 }
        ensures found { IfOk result (λ x. Finds (body depth line) self.old.line self.old.rest.now (view_body x.part) self.new.line self.new.rest.now) }
        ensures height { IfOk result (λ x. x.height ≡ depth_of_body (view_body x.part)) }
        ensures low { IfOk result (λ x. depth + x.height ≤ 200) }
        ensures refused { IfErr result (Refuses (body depth line) self.old.line self.old.rest.now self.new.rest.now) }
        ensures shorter { IfOk result (λ _. length self.new.rest.now < length self.old.rest.now) }
    {
        self.want(Mark::OpenParen)?;
        let params = self.parameters(alloc)?;
        self.want(Mark::CloseParen)?;
        let block = self.block(alloc, depth)?;
        self.want(Mark::End)?;
        Ok(Tall {
            height: block.height,
            part: Body {
                params: params.names,
                vararg: params.vararg,
                block: block.part,
                first_line: line,
                last_line: self.line,
            },
        })
    }

    /// The parameters of a function.
    fn parameters(&mut self, alloc: Global) -> Result<Parameters, Halt>
        ensures found { IfOk result (λ x. Finds (parameters) self.old.line self.old.rest.now (parameters_of x) self.new.line self.new.rest.now) }
        ensures refused { IfErr result (Refuses (parameters) self.old.line self.old.rest.now self.new.rest.now) }
        ensures shorter { IfOk result (λ _. length self.new.rest.now ≤ length self.old.rest.now) }
    {
        let mut names = Names::new(alloc);
        if self.is(Mark::CloseParen) {
            return Ok(Parameters {
                names,
                vararg: false,
            });
        }
        loop {
            if self.accept(Mark::DotDotDot) {
                return Ok(Parameters {
                    names,
                    vararg: true,
                });
            }
            let name = self.name(alloc)?;
            names.push(name)?;
            if !self.accept(Mark::Comma) {
                return Ok(Parameters {
                    names,
                    vararg: false,
                });
            }
        }
    }

    /// Names with a mark between them, behind the first.
    pub fn names(&mut self, alloc: Global, mark: Mark, first: ByteText) -> Result<Names, Halt>
        ensures found { IfOk result (λ names. FindsNames (kind_of_mark mark) first self.old.line self.old.rest.now names self.new.line self.new.rest.now) }
        ensures refused { IfErr result (RefusesNames (kind_of_mark mark) first self.old.line self.old.rest.now self.new.rest.now) }
        ensures shorter { IfOk result (λ _. length self.new.rest.now ≤ length self.old.rest.now) }
    {
        let mut names = Names::new(alloc);
        names.push(first)?;
        while self.accept(mark) {
            let name = self.name(alloc)?;
            names.push(name)?;
        }
        Ok(names)
    }

    /// The name of a method, where there is one.
    fn method_name(&mut self, alloc: Global) -> Result<Option<ByteText>, Halt>
        ensures found { IfOk result (λ x. Finds (method_name) self.old.line self.old.rest.now x self.new.line self.new.rest.now) }
        ensures refused { IfErr result (Refuses (method_name) self.old.line self.old.rest.now self.new.rest.now) }
        ensures shorter { IfOk result (λ _. length self.new.rest.now ≤ length self.old.rest.now) }
    {
        if !self.accept(Mark::Colon) {
            return Ok(None);
        }
        Ok(Some(self.name(alloc)?))
    }

    /// A function that is assigned to its path.
    #[cycle(parser)]
    pub fn function_statement(
        &mut self,
        alloc: Global,
        depth: usize,
    ) -> Result<Tall<StatKind>, Halt>
        requires { depth ≤ 201 }
        ensures found { IfOk result (λ x. Finds (function_of depth) self.old.line self.old.rest.now (view_statement x.part) self.new.line self.new.rest.now) }
        ensures height { IfOk result (λ x. x.height ≡ depth_of_statement (view_statement x.part)) }
        ensures low { IfOk result (λ x. depth + x.height ≤ 200) }
        ensures refused { IfErr result (Refuses (function_of depth) self.old.line self.old.rest.now self.new.rest.now) }
        ensures shorter { IfOk result (λ _. length self.new.rest.now < length self.old.rest.now) }
    {
        let line = self.next_line();
        self.take(depth + 1)?;
        let name = self.name(alloc)?;
        let path = self.names(alloc, Mark::Dot, name)?;
        let method = self.method_name(alloc)?;
        let body = self.body(alloc, depth + 1, line)?;
        Ok(Tall {
            height: body.height + 1,
            part: StatKind::Function {
                path,
                method,
                body: body.part,
            },
        })
    }

    /// A local function, or local names.
    #[cycle(parser)]
    pub fn local_statement(&mut self, alloc: Global, depth: usize) -> Result<Tall<StatKind>, Halt>
        requires { depth ≤ 201 }
        ensures found { IfOk result (λ x. Finds (local_of depth) self.old.line self.old.rest.now (view_statement x.part) self.new.line self.new.rest.now) }
        ensures height { IfOk result (λ x. x.height ≡ depth_of_statement (view_statement x.part)) }
        ensures low { IfOk result (λ x. depth + x.height ≤ 200) }
        ensures refused { IfErr result (Refuses (local_of depth) self.old.line self.old.rest.now self.new.rest.now) }
        ensures shorter { IfOk result (λ _. length self.new.rest.now < length self.old.rest.now) }
    {
        self.take(depth)?;
        if self.is(Mark::Function) {
            let function = self.local_function(alloc, depth)?;
            Ok(function)
        } else {
            let names = self.local_names(alloc, depth)?;
            Ok(names)
        }
    }

    /// A local function, behind its `local`.
    #[cycle(parser)]
    fn local_function(&mut self, alloc: Global, depth: usize) -> Result<Tall<StatKind>, Halt>
        requires { depth ≤ 200 }
        ensures found { IfOk result (λ x. Finds (local_function_of depth) self.old.line self.old.rest.now (view_statement x.part) self.new.line self.new.rest.now) }
        ensures height { IfOk result (λ x. x.height ≡ depth_of_statement (view_statement x.part)) }
        ensures low { IfOk result (λ x. depth + x.height ≤ 200) }
        ensures refused { IfErr result (Refuses (local_function_of depth) self.old.line self.old.rest.now self.new.rest.now) }
        ensures shorter { IfOk result (λ _. length self.new.rest.now < length self.old.rest.now) }
    {
        let line = self.next_line();
        self.take(depth + 1)?;
        let name = self.name(alloc)?;
        let body = self.body(alloc, depth + 1, line)?;
        Ok(Tall {
            height: body.height + 1,
            part: StatKind::LocalFunction {
                name,
                body: body.part,
            },
        })
    }

    /// Local names with their values, behind their `local`.
    #[cycle(parser)]
    fn local_names(&mut self, alloc: Global, depth: usize) -> Result<Tall<StatKind>, Halt>
        requires { depth ≤ 200 }
        ensures found { IfOk result (λ x. Finds (local_names_of depth) self.old.line self.old.rest.now (view_statement x.part) self.new.line self.new.rest.now) }
        ensures height { IfOk result (λ x. x.height ≡ depth_of_statement (view_statement x.part)) }
        ensures low { IfOk result (λ x. depth + x.height ≤ 200) }
        ensures refused { IfErr result (Refuses (local_names_of depth) self.old.line self.old.rest.now self.new.rest.now) }
        ensures shorter { IfOk result (λ _. length self.new.rest.now < length self.old.rest.now) }
    {
        let name = self.name(alloc)?;
        let names = self.names(alloc, Mark::Comma, name)?;
        let exps = self.values(alloc, depth)?;
        Ok(Tall {
            height: exps.height,
            part: StatKind::Local {
                names,
                exps: exps.part,
            },
        })
    }

    /// The values of local names, where there are some.
    #[cycle(parser)]
    fn values(&mut self, alloc: Global, depth: usize) -> Result<Tall<Exps>, Halt>
        requires { depth ≤ 200 }
        ensures found { IfOk result (λ x. Finds (values depth) self.old.line self.old.rest.now (view_exps x.part) self.new.line self.new.rest.now) }
        ensures height { IfOk result (λ x. x.height ≡ depth_of_expressions (view_exps x.part)) }
        ensures low { IfOk result (λ x. depth + x.height ≤ 200) }
        ensures refused { IfErr result (Refuses (values depth) self.old.line self.old.rest.now self.new.rest.now) }
        ensures shorter { IfOk result (λ _. length self.new.rest.now ≤ length self.old.rest.now) }
    {
        if !self.is(Mark::Equal) {
            return Ok(Tall {
                part: Exps::new(alloc),
                height: 0,
            });
        }
        self.take(depth + 1)?;
        let list = self.expressions(alloc, depth)?;
        Ok(list)
    }
}
