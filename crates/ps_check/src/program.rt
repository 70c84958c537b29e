ghost use Rattle.ps_base.specs.TyView as types;
ghost use Rattle.ps_tree.specs.Phrase.{phrase_of};
ghost use Rattle.ps_tree.specs.Phrase as form;
ghost use Rattle.ps_tree.specs.PhraseLists.{phrases_in};
ghost use Rattle.ps_checker.specs.ps_scope.Content.{names_of};
ghost use Rattle.ps_slots.specs.ps_typing.Checking.{check as check_of, check_form, check_all};
ghost use Rattle.ps_check.specs.inside.Whole.{IsMeasured, AreMeasured, taken_from};

use ps_base::line::Line;
use ps_base::ty::Ty;
use ps_checker::checker::Checker;
use ps_checker::ps_checked::fits::void_before;
use ps_checker::ps_checked::items::block_of;
use ps_checker::ps_declared::clause::Clause;
use ps_checker::ps_declared::fault::CheckFault;
use ps_program::form::Tree;
use ps_slots::{Sizes, sizes_of};
use ps_tree::rough::Rough;

/// A program that was checked, and how large it is.
#[derive(Drop)]
pub(crate) struct Measured {
    pub(crate) clause: Clause,
    pub(crate) sizes: Sizes,
}

/// The items of a program that is a sequence, the type of the last, and how large they are.
#[derive(Drop)]
pub(crate) struct MeasuredItems {
    pub(crate) trees: Vec<Tree>,
    pub(crate) ty: Ty,
    pub(crate) sizes: Sizes,
}

/// Checks a program on this line. The items of its sequence, where it is one, were taken out of it; they are let go one by one as they are
/// checked, so that their memory serves for the typed tree, and each is measured while it is still in the processor's cache. What a fault
/// leaves of them is the caller's to let go.
pub(crate) fn program(
    checker: &mut Checker,
    line: Line,
    rough: &Rough,
    items: &mut Option<Vec<Rough>>,
) -> Result<Measured, CheckFault>
    ensures { IsMeasured (check_of (names_of checker.old.scope) (taken_from line (phrase_of rough.now) items.old)) result checker.new.scope }
{
    match items {
        Some(items) => owned_sequence(checker, line, items),
        None => {
            let clause = checker.clause(rough)?;
            let sizes = sizes_of(&clause.tree)?;
            Ok(Measured { clause, sizes })
        }
    }
}

// A sequence that is let go while it is checked.
fn owned_sequence(
    checker: &mut Checker,
    line: Line,
    items: &mut Vec<Rough>,
) -> Result<Measured, CheckFault>
    ensures { IsMeasured (check_form (names_of checker.old.scope) line (form.Sequence (phrases_in items.old.items))) result checker.new.scope }
{
    let block = checker.scope.enter();
    let MeasuredItems { trees, ty, sizes } = owned_items(checker, line, items)?;
    checker.scope.leave(block);
    let clause = block_of(checker.alloc, trees, ty)?;
    let sizes = sizes.in_sequence();
    Ok(Measured { clause, sizes })
}

// The items of a sequence, each of which is let go when it is checked.
fn owned_items(
    checker: &mut Checker,
    line: Line,
    rest: &mut Vec<Rough>,
) -> Result<MeasuredItems, CheckFault>
    ensures { AreMeasured (check_all (names_of checker.old.scope) line types.Void (phrases_in rest.old.items)) result checker.new.scope }
{
    rest.reverse();
    let mut trees = Vec::with_capacity(checker.alloc, 1)?;
    let mut last = Ty::Void;
    let mut line = line;
    let mut sizes = Sizes::none();
    while let Some(item) = rest.pop() {
        void_before(last, line)?;
        let Clause { tree, ty } = checker.clause(&item)?;
        sizes = sizes.and_item(&tree)?;
        trees.push(tree)?;
        last = ty;
        line = item.line;
    }
    Ok(MeasuredItems {
        trees,
        ty: last,
        sizes,
    })
}
