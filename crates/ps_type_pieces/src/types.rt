ghost use Rattle.std.specs.Prelude.{◌+◌, ◌++◌, OnOk};
ghost use Rattle.ps_base.specs.TyView.{ty_view, ty_views};
ghost use Rattle.ps_base.specs.TyView as ty;
ghost use Rattle.ps_tree.specs.Phrase.{of_type, names_in, groups_in};
ghost use Rattle.ps_layout.specs.Lexemes.{nothing, blank};
ghost use Rattle.ps_layout.specs.Layout.{behind_arrow, type_lexemes, types_lexemes, more_types_lexemes, groups_lexemes, more_groups_lexemes, group_lexemes, heading_lexemes};
ghost use Rattle.ps_layout.specs.Weights.{weight_ty, weight_tys, weight_groups, weight_group, weight_heading};
ghost use Rattle.ps_layout.specs.Waiting.{waiting, gap_of, Adds};

use ps_base::ty::Ty;
use ps_layout::pending::Pending;
use ps_layout::piece::{Gap, Piece};
use ps_tree::ps_scan::{mark, word};
use ps_tree::rough::{Group, Named};
use std::alloc::AllocError;

/// The pieces of a type, after the gap: its word, or its mark and its parts. Want of memory leaves any prefix of them.
pub fn put_type<'a>(pending: &mut Pending<'a>, gap: Gap, ty: &'a Ty) -> Result<(), AllocError>
    ensures { OnOk result (Adds (waiting pending.old) (type_lexemes (gap_of gap) (ty_view ty.now)) (weight_ty (ty_view ty.now)) (waiting pending.new)) }
{
    match ty {
        Ty::Int => pending.put(&[Piece::Word(gap, word::INT)]),
        Ty::Bool => pending.put(&[Piece::Word(gap, word::BOOL)]),
        Ty::Str => pending.put(&[Piece::Word(gap, word::STRING)]),
        Ty::Pntr => pending.put(&[Piece::Word(gap, word::PNTR)]),
        Ty::Void => Ok(()),
        Ty::Vector(element) => put_vector_type(pending, gap, element),
        Ty::Proc(signature) => {
            put_proc_type(
                pending,
                gap,
                signature.parameters.as_slice(),
                &signature.gives,
            )
        }
    }
}

fn put_vector_type<'a>(
    pending: &mut Pending<'a>,
    gap: Gap,
    element: &'a Ty,
) -> Result<(), AllocError>
    ensures { OnOk result (Adds (waiting pending.old) (type_lexemes (gap_of gap) (ty.Vector (ty_view element.now))) (weight_ty (ty_view element.now) + 2) (waiting pending.new)) }
{
    pending.put(&[
        Piece::Mark(gap, mark::TIMES),
        Piece::Type(Gap::Nothing, element),
    ])
}

fn put_proc_type<'a>(
    pending: &mut Pending<'a>,
    gap: Gap,
    parameters: &'a [Ty],
    gives: &'a Ty,
) -> Result<(), AllocError>
    ensures { OnOk result (Adds (waiting pending.old) (type_lexemes (gap_of gap) (ty.Proc (ty_views parameters.now) (ty_view gives.now))) (weight_tys (ty_views parameters.now) + weight_ty (ty_view gives.now) + 8) (waiting pending.new)) }
{
    pending.put(&[
        Piece::Word(gap, word::PROC),
        Piece::Mark(Gap::Nothing, mark::OPEN_ROUND),
        Piece::Types(parameters),
        Piece::Gives(gives),
        Piece::Mark(Gap::Nothing, mark::CLOSE_ROUND),
    ])
}

/// The pieces of the types of parameters, parted by commas; of no parameters none.
pub fn put_types<'a>(pending: &mut Pending<'a>, tys: &'a [Ty]) -> Result<(), AllocError>
    ensures { OnOk result (Adds (waiting pending.old) (types_lexemes nothing (ty_views tys.now)) (weight_tys (ty_views tys.now)) (waiting pending.new)) }
{
    match tys.split_first() {
        None => Ok(()),
        Some((first, rest)) => {
            pending.put(&[Piece::Type(Gap::Nothing, first), Piece::MoreTypes(rest)])
        }
    }
}

/// The same after the first type, each after a comma.
pub fn put_more_types<'a>(pending: &mut Pending<'a>, tys: &'a [Ty]) -> Result<(), AllocError>
    ensures { OnOk result (Adds (waiting pending.old) (more_types_lexemes (ty_views tys.now)) (weight_tys (ty_views tys.now)) (waiting pending.new)) }
{
    match tys.split_first() {
        None => Ok(()),
        Some((first, rest)) => pending.put(&[
            Piece::Mark(Gap::Nothing, mark::COMMA),
            Piece::Type(Gap::Blank, first),
            Piece::MoreTypes(rest),
        ]),
    }
}

/// The pieces of a result, its type after its arrow; a procedure without a result has none.
pub fn put_gives<'a>(pending: &mut Pending<'a>, ty: &'a Ty) -> Result<(), AllocError>
    ensures { OnOk result (Adds (waiting pending.old) (behind_arrow (ty_view ty.now) (type_lexemes blank (ty_view ty.now))) (weight_ty (ty_view ty.now) + 2) (waiting pending.new)) }
{
    match ty {
        Ty::Void => Ok(()),
        _ => pending.put(&[
            Piece::Mark(Gap::Blank, mark::ARROW),
            Piece::Type(Gap::Blank, ty),
        ]),
    }
}

/// The pieces of parameters or fields, each with its type; of none none.
pub fn put_groups<'a>(pending: &mut Pending<'a>, groups: &'a [Group]) -> Result<(), AllocError>
    ensures { OnOk result (Adds (waiting pending.old) (groups_lexemes (groups_in groups.now)) (weight_groups (groups_in groups.now)) (waiting pending.new)) }
{
    match groups.split_first() {
        None => Ok(()),
        Some((first, rest)) => pending.put(&[
            Piece::Named(Gap::Nothing, &first.ty, &first.first),
            Piece::MoreGroups(&first.ty, first.more.as_slice(), rest),
        ]),
    }
}

/// The pieces of the names that share the type of the one before them, each with the type, and then of the groups.
pub fn put_more_groups<'a>(
    pending: &mut Pending<'a>,
    ty: &'a Ty,
    names: &'a [Named],
    groups: &'a [Group],
) -> Result<(), AllocError>
    ensures { OnOk result (Adds (waiting pending.old) (more_groups_lexemes (names_in (ty_view ty.now) names.now ++ groups_in groups.now)) (weight_groups (names_in (ty_view ty.now) names.now ++ groups_in groups.now)) (waiting pending.new)) }
{
    match names.split_first() {
        None => put_next_group(pending, groups),
        Some((first, rest)) => pending.put(&[
            Piece::Mark(Gap::Nothing, mark::SEMICOLON),
            Piece::Named(Gap::Blank, ty, first),
            Piece::MoreGroups(ty, rest, groups),
        ]),
    }
}

fn put_next_group<'a>(pending: &mut Pending<'a>, groups: &'a [Group]) -> Result<(), AllocError>
    ensures { OnOk result (Adds (waiting pending.old) (more_groups_lexemes (groups_in groups.now)) (weight_groups (groups_in groups.now)) (waiting pending.new)) }
{
    match groups.split_first() {
        None => Ok(()),
        Some((first, rest)) => pending.put(&[
            Piece::Mark(Gap::Nothing, mark::SEMICOLON),
            Piece::Named(Gap::Blank, &first.ty, &first.first),
            Piece::MoreGroups(&first.ty, first.more.as_slice(), rest),
        ]),
    }
}

/// The pieces of a parameter or a field, after the gap: its type and its name.
pub fn put_named<'a>(
    pending: &mut Pending<'a>,
    gap: Gap,
    ty: &'a Ty,
    name: &'a Named,
) -> Result<(), AllocError>
    ensures { OnOk result (Adds (waiting pending.old) (group_lexemes (gap_of gap) (of_type (ty_view ty.now) name.now)) (weight_group (of_type (ty_view ty.now) name.now)) (waiting pending.new)) }
{
    pending.put(&[
        Piece::Type(gap, ty),
        Piece::Name(Gap::Blank, name.name.as_slice()),
    ])
}

/// The pieces of what stands before the clause of a procedure literal: its parameters and its result in brackets, and a semicolon.
pub fn put_heading<'a>(
    pending: &mut Pending<'a>,
    params: &'a [Group],
    gives: &'a Ty,
) -> Result<(), AllocError>
    ensures { OnOk result (Adds (waiting pending.old) (heading_lexemes (groups_in params.now) (ty_view gives.now)) (weight_heading (groups_in params.now) (ty_view gives.now)) (waiting pending.new)) }
{
    pending.put(&[
        Piece::Mark(Gap::Nothing, mark::OPEN_ROUND),
        Piece::Groups(params),
        Piece::Gives(gives),
        Piece::Mark(Gap::Nothing, mark::CLOSE_ROUND),
        Piece::Mark(Gap::Nothing, mark::SEMICOLON),
    ])
}
