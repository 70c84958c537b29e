ghost use Rattle.std.specs.Prelude.{◌≡◌, Some, IfOk, IfErr};
ghost use Rattle.ps_base.specs.TyView.{Void};
ghost use Rattle.ps_tree.specs.Phrase.{phrase_of};
ghost use Rattle.ps_program.specs.NodeView.{body_of};
ghost use Rattle.ps_slots.specs.ps_typing.Fault.{Fault};
ghost use Rattle.ps_slots.specs.ps_typing.Library.{library_names};
ghost use Rattle.ps_slots.specs.ps_typing.Checking.{check as check_of, wants};
ghost use Rattle.ps_slots.specs.ps_typing.Program.{Typed, Fails, check_program, end_line as end_line_of};
ghost use Rattle.ps_checker.specs.ps_declared.Faults.{fault_of};
ghost use Rattle.ps_check.specs.inside.Whole.{IsWhole};

use crate::program::{Measured, program};
use ps_base::line::Line;
use ps_base::list::List;
use ps_base::ty::Ty;
use ps_checker::checker::Checker;
use ps_checker::ps_checked::items::{end_line, taken_items};
use ps_checker::ps_declared::fault::CheckFault;
use ps_checker::ps_scope::scope::Scope;
use ps_names::place;
use ps_program::body::{Body, Program};
use ps_program::form::Tree;
use ps_slots::{Complex, Sizes};
use ps_tree::rough::Rough;
use ps_type_text::Member;
use std::alloc::Global;

/// Checks a program: its names, its types and how many slots its bodies need. Answers the typed program, in which each name has
/// its place, or the first fault in the order of the text, or `Memory` (`docs/language.md`); what was made until then is let go. Of a
/// sequence each item is let go when it is checked, so that the text's tree and the typed one don't stand beside each other whole. Slot
/// counts are tested before names have their places, which doesn't change them.
pub fn check(alloc: Global, rough: Rough) -> Result<Program, CheckFault>
    ensures program { IfOk result (λ program. check_program (phrase_of rough) ≡ Typed (body_of program.body)) }
    ensures fault { IfErr result (λ fault. (told : Fault) → fault_of fault ≡ Some told → check_program (phrase_of rough) ≡ Fails told) }
{
    let Whole { tree, names, sizes } = tree_and_names(alloc, rough)?;
    let body = Body {
        params: List::new(Vec::new(alloc)),
        gives: Ty::Void,
        tree,
        scope: None,
        line: Line(1),
    };
    match sizes.first_complex(0, body.line)? {
        None => {
            let body = place(alloc, names, body, sizes.literal)?;
            Ok(Program { body })
        }
        Some(Complex { line, count }) => Err(CheckFault::TooComplex { line, count }),
    }
}

/// The tree of a program in which each name is a number, the names by their numbers, and how large the tree is.
#[derive(Drop)]
pub(crate) struct Whole {
    pub(crate) tree: Tree,
    pub(crate) names: Vec<Member>,
    pub(crate) sizes: Sizes,
}

fn tree_and_names(alloc: Global, rough: Rough) -> Result<Whole, CheckFault>
    ensures { IsWhole (wants Void (end_line_of (phrase_of rough)) (check_of library_names (phrase_of rough))) result }
{
    let mut rough = rough;
    let line = rough.line;
    let end = end_line(&rough);
    // Let go last: what the scope let go after them would be joined with all of their small pieces.
    let mut items = taken_items(alloc, &mut rough);
    let scope = Scope::new(alloc)?;
    let mut checker = Checker { alloc, scope };
    let Measured { clause, sizes } = program(&mut checker, line, &rough, &mut items)?;
    let tree = clause.of_type(end, &Ty::Void)?;
    let names = checker.into_scope().into_locals();
    Ok(Whole { tree, names, sizes })
}
