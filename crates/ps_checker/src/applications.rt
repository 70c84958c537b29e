ghost use Rattle.ps_base.specs.TyView.{ty_view, ty_views};
ghost use Rattle.ps_tree.specs.PhraseLists.{phrases_in};
ghost use Rattle.ps_program.specs.NodeView.{node_of};
ghost use Rattle.ps_steps.specs.ps_scope.Content.{names_of};
ghost use Rattle.ps_steps.specs.ps_typing.Names.{meant};
ghost use Rattle.ps_steps.specs.ps_typing.Checking.{checkers, value_applied, name_applied as name_applied_of, with_args as with_args_of};
ghost use Rattle.ps_steps.specs.ps_declared.inside.Answers.{IsClause};
ghost use Rattle.ps_steps.specs.ps_checked.inside.Forms.{head_node};

use crate::checker::Checker;
use ps_base::line::Line;
use ps_base::ty::Ty;
use ps_steps::ps_checked::double::Double;
use ps_steps::ps_checked::head::Head;
use ps_steps::ps_checked::items::push_typed;
use ps_steps::ps_checked::vectors::subscripted;
use ps_steps::ps_declared::clause::Clause;
use ps_steps::ps_declared::fault::CheckFault;
use ps_steps::ps_declared::fields::field_of;
use ps_steps::ps_declared::names::{meaning, value_of};
use ps_steps::ps_scope::meaning::{Meaning, Procedure};
use ps_tree::rough::Rough;

impl Checker {
    /// What is applied by its name.
    #[cycle(clause)]
    pub(crate) fn name_applied(
        &mut self,
        line: Line,
        name_line: Line,
        name: &[u8],
        args: &[Rough],
    ) -> Result<Clause, CheckFault>
        ensures { IsClause (name_applied_of (names_of self.old.scope) line name_line (meant (names_of self.old.scope) name.now) (phrases_in args.now) (checkers (phrases_in args.now))) result self.new.scope }
    {
        match meaning(&self.scope, name)? {
            None => Err(CheckFault::Unknown { line: name_line }),
            Some(Meaning::Local(local)) => {
                let f = value_of(self.alloc, local)?;
                self.apply(line, f, args)
            }
            Some(Meaning::Class(class)) => {
                let head = Head::Make(class.text.clone()?);
                self.with_args(line, class.fields.as_slice(), args, head, &Ty::Pntr)
            }
            Some(Meaning::Library(procedure)) => match procedure {
                Procedure::Plain { code, signature } => {
                    let parameters = signature.parameters.as_slice();
                    self.with_args(line, parameters, args, Head::Lib(code), &signature.gives)
                }
                Procedure::Scan { text } => {
                    if args.len() != 2 {
                        return Err(CheckFault::NotApplicable { line });
                    }
                    self.double(Double::Scan { text, line }, &args[0], &args[1])
                }
            },
        }
    }

    /// What a value is applied to.
    #[cycle(clause)]
    pub(crate) fn apply(
        &mut self,
        line: Line,
        f: Clause,
        args: &[Rough],
    ) -> Result<Clause, CheckFault>
        ensures { IsClause (value_applied (names_of self.old.scope) line (node_of f.tree) (ty_view f.ty) (phrases_in args.now) (checkers (phrases_in args.now))) result self.new.scope }
    {
        let Clause { tree, ty } = f;
        match &ty {
            Ty::Proc(signature) => {
                let parameters = signature.parameters.as_slice();
                self.with_args(line, parameters, args, Head::Call(tree), &signature.gives)
            }
            Ty::Vector(_) => {
                if args.is_empty() {
                    return Err(CheckFault::NotApplicable { line });
                }
                let mut v = Clause { tree, ty };
                for arg in args {
                    let element = subscripted(line, v)?;
                    v = self.single(element, arg)?;
                }
                Ok(v)
            }
            Ty::Pntr => field_of(self.alloc, &self.scope, line, tree, args),
            Ty::Int => Err(CheckFault::NotApplicable { line }),
            Ty::Bool => Err(CheckFault::NotApplicable { line }),
            Ty::Str => Err(CheckFault::NotApplicable { line }),
            Ty::Void => Err(CheckFault::NotApplicable { line }),
        }
    }

    #[cycle(clause)]
    fn with_args(
        &mut self,
        line: Line,
        types: &[Ty],
        args: &[Rough],
        head: Head,
        gives: &Ty,
    ) -> Result<Clause, CheckFault>
        ensures { IsClause (with_args_of (names_of self.old.scope) line (ty_views types.now) (checkers (phrases_in args.now)) (head_node head line) (ty_view gives.now)) result self.new.scope }
    {
        if types.len() != args.len() {
            return Err(CheckFault::NotApplicable { line });
        }
        let mut trees = Vec::new(self.alloc);
        for i in 0..args.len() {
            let ty = &types[i];
            let arg = &args[i];
            let clause = self.clause(arg)?;
            push_typed(&mut trees, clause, arg.line, ty)?;
        }
        head.clause(self.alloc, line, trees, gives.copy()?)
    }
}
