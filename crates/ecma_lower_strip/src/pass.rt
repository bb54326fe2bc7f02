//! The pass that writes a program of TypeScript as one of ECMAScript.
ghost use Rattle.std.specs.Prelude.{◌≡◌, ◌+◌, ◌<◌, Err, IfErr, None, OnOk};
ghost use Rattle.ecma_scope.specs.Drawing.{HasGivenAtMost};
ghost use Rattle.ecma_elide.specs.Elision.{elided};
ghost use Rattle.ecma_lower_strip.specs.Converting.{converted, default_config, drawn, drawn_in, written};
ghost use Rattle.ecma_lower_strip.specs.Refusals.{IsRefusedFor, OnRefusal, Refuses, refused, refused_of};

use crate::error::TypeScriptError;
use ecma_config::Config;
use ecma_elide::elide;
use ecma_lower::{check_lowering, has_module_declaration, mark_module, transform};
use ecma_scope::check_scopes;
use ecma_strip::strip_type;
use ecma_tree::{Mark, PassError, Program, Session};
use std::alloc::Global;

/// The pass that writes a program of TypeScript as one of ECMAScript: [`TypeScriptPass::visit_mut_program`] runs it.
#[derive(Debug, Drop)]
pub struct TypeScriptPass {
    pub config: Config,
    /// The mark whose context [`ecma_scope::resolve`] gave to free names.
    pub unresolved: Mark,
    /// The mark of the scope of the module.
    pub top: Mark,
}

/// The pass with these options, for a program that was resolved with these marks.
pub fn typescript(config: Config, unresolved: Mark, top: Mark) -> TypeScriptPass
    ensures { result ≡ record { config = config; unresolved = unresolved; top = top } }
{
    TypeScriptPass {
        config,
        unresolved,
        top,
    }
}

/// The pass with the default options.
pub fn strip(unresolved: Mark, top: Mark) -> TypeScriptPass
    ensures { result ≡ record { config = default_config; unresolved = unresolved; top = top } }
{
    typescript(Config::default(), unresolved, top)
}

/// Whether nothing refuses a program without what elision drops; else the first refusal.
fn accept(alloc: Global, config: &Config, program: &Program) -> Result<(), TypeScriptError>
    ensures accepted { OnOk result (refused_of config.now program.now ≡ None) }
    ensures refusal { IfErr result (IsRefusedFor config.now program.now) }
{
    check_lowering(alloc, program, config)?;
    check_scopes(alloc, program)?;
    Ok(())
}

impl TypeScriptPass {
    /// Writes a program without what elision drops, of one that had an import or an export or had none.
    fn write(
        &self,
        alloc: Global,
        session: &mut Session,
        was_module: bool,
        program: &mut Program,
    ) -> Result<(), PassError>
        ensures program { OnOk result (program.new ≡ written self.now.config self.now.unresolved session.old.left was_module program.old) }
        ensures left { OnOk result (session.new.left + drawn self.now.config program.old ≡ session.old.left) }
        ensures spent { result ≡ Err PassError.Spent → session.old.left < drawn self.now.config program.old }
        ensures session { HasGivenAtMost (drawn self.now.config program.old) session.old session.new }
    {
        strip_type().visit_mut_module(alloc, program)?;
        let config = &self.config;
        let mut pass = transform(
            self.unresolved,
            self.top,
            config.import_export_assign_config,
            config.ts_enum_is_mutable,
            config.verbatim_module_syntax,
        );
        pass.visit_mut_module(alloc, session, program)?;
        mark_module(alloc, config, was_module, program)?;
        Ok(())
    }

    /// Writes a resolved program as one of ECMAScript (docs/LOWERING.md, "One pass"): what elision drops goes, then the types; then assignments are written, and
    /// `export {}` comes where nothing else says that it is a module. A script has no assignments, and no `export {}` comes there.
    ///
    /// `Lower` and `Scope` are told of the program without what elision drops, in this order, and leave that program; the session then is as it was. `Spent` comes only where two
    /// contexts are needed and the session has not as many; after it, and where memory runs out, the program may be half done.
    #[tactic(auto, using(crate::proofs::Refusing::refusing))]
    pub fn visit_mut_program(
        &mut self,
        alloc: Global,
        session: &mut Session,
        program: &mut Program,
    ) -> Result<(), TypeScriptError>
        ensures program { OnOk result (program.new ≡ converted self.old.config self.old.unresolved session.old.left program.old) }
        ensures accepted { OnOk result (refused self.old.config program.old ≡ None) }
        ensures refusal { IfErr result (Refuses self.old.config session.old.left program.old) }
        ensures kept { OnRefusal result (program.new ≡ elided self.old.config program.old) }
        ensures left { OnOk result (session.new.left + drawn_in self.old.config program.old ≡ session.old.left) }
        ensures undrawn { OnRefusal result (session.new ≡ session.old) }
        ensures session { HasGivenAtMost (drawn_in self.old.config program.old) session.old session.new }
        ensures pass { self.new ≡ self.old }
    {
        let was_module = has_module_declaration(program);
        elide(alloc, &self.config, program)?;
        accept(alloc, &self.config, program)?;
        self.write(alloc, session, was_module, program)?;
        Ok(())
    }
}
