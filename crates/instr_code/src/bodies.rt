ghost use Rattle.std.specs.Prelude.{◌≡◌, [], IfOk, OnOk, ◌∷◌, map};
ghost use Rattle.instr_code.specs.Bare.{procedure_without_body, template_without_body};
ghost use Rattle.instr_code.specs.Bodies.{HaveRoom, PutsBodies};
ghost use Rattle.sheet_model.specs.declared.sheet.Procedure.{Procedure as Procedures};
ghost use Rattle.sheet_model.specs.declared.sheet.Template.{Template as Templates};

use crate::code::Code;
use crate::emit::Emitter;
use sheet_model::{Instr, Procedure, Template};
use std::alloc::Global;
use stx_base::{List, Memory};

/// The bodies so far, and where each one begins.
#[derive(Drop)]
pub struct Bodies {
    alloc: Global,
    starts: List<u32>,
    emitter: Emitter,
}

impl Bodies {
    /// None. Allocates nothing.
    pub fn new(alloc: Global) -> Bodies
        ensures starts { result.starts ≡ [] }
        ensures ops { result.emitter.ops ≡ [] }
        ensures instrs { result.emitter.instrs ≡ [] }
    {
        Bodies {
            alloc,
            starts: List::new(alloc),
            emitter: Emitter::new(alloc),
        }
    }

    /// Puts the bodies of templates, and gives the templates back without them.
    pub fn put_templates(&mut self, templates: List<Template>) -> Result<List<Template>, Memory>
        requires { HaveRoom (map (λ (t : Templates). t.body) templates) self.old }
        ensures puts { OnOk result (PutsBodies (map (λ (t : Templates). t.body) templates) self.old self.new) }
        ensures left { IfOk result (λ left. left ≡ map template_without_body templates) }
    {
        let mut left = List::new(self.alloc);
        for template in templates.into_vec() {
            let Template {
                group,
                pattern,
                priority,
                visibility,
                public,
                new_scope,
                params,
                body,
                at,
            } = template;
            self.put(body)?;
            let body = List::new(self.alloc);
            left.push(Template {
                group,
                pattern,
                priority,
                visibility,
                public,
                new_scope,
                params,
                body,
                at,
            })?;
        }
        Ok(left)
    }

    pub fn put_procedures(&mut self, procedures: List<Procedure>) -> Result<List<Procedure>, Memory>
        requires { HaveRoom (map (λ (p : Procedures). p.body) procedures) self.old }
        ensures puts { OnOk result (PutsBodies (map (λ (p : Procedures). p.body) procedures) self.old self.new) }
        ensures left { IfOk result (λ left. left ≡ map procedure_without_body procedures) }
    {
        let mut left = List::new(self.alloc);
        for procedure in procedures.into_vec() {
            let Procedure {
                group,
                name,
                params,
                body,
                at,
            } = procedure;
            self.put(body)?;
            let body = List::new(self.alloc);
            left.push(Procedure {
                group,
                name,
                params,
                body,
                at,
            })?;
        }
        Ok(left)
    }

    fn put(&mut self, body: List<Instr>) -> Result<(), Memory>
        requires { HaveRoom (body ∷ []) self.old }
        ensures { OnOk result (PutsBodies (body ∷ []) self.old self.new) }
    {
        self.starts.push(self.emitter.place())?;
        self.emitter.put_body(body)
    }

    pub fn into_code(self) -> Code
        ensures ops { result.ops ≡ self.emitter.ops }
        ensures starts { result.starts ≡ self.starts }
        ensures instrs { result.instrs ≡ self.emitter.instrs }
    {
        let Bodies {
            starts,
            emitter,
            ..
        } = self;
        let (ops, instrs) = emitter.into_lists();
        Code {
            ops,
            starts,
            instrs,
        }
    }
}
