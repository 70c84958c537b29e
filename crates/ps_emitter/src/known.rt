ghost use Rattle.std.specs.Prelude.{◌≡◌, IfOk};
ghost use Rattle.ps_base.specs.TyView.{ty_view, ty_views};
ghost use Rattle.ps_program.specs.NodeView.{node_of, nodes_in, params_of};
ghost use Rattle.ps_base.specs.TyView as view;
ghost use Rattle.ps_typing.specs.WellTyped.{types_of_params};
ghost use Rattle.ps_emitter.specs.Choices.{references as references_in, reference_arguments};
ghost use Rattle.ps_emitter.specs.Giving.{type_of, result_of};
ghost use Rattle.ps_emitter.specs.Chains.{called, type_in, type_behind};
ghost use Rattle.ps_emitter.specs.inside.Sources.{results, IsSource, IsLastSource};

use crate::choices::is_number;
use crate::emitter::sum;
use ps_base::ty::Ty;
use ps_program::body::{Body, Param};
use ps_program::form::{Tree, TreeForm};
use std::alloc::AllocError;

/// What is known of the type of a value that may be called.
#[derive(Clone, Copy)]
pub enum Known<'a> {
    /// It is no procedure.
    Nothing,
    Type(&'a Ty),
    /// That of a literal with this body.
    Literal(&'a Body),
}

/// Where the type of a clause is found.
#[derive(Clone, Copy)]
enum Source<'a> {
    Here(Known<'a>),
    /// It is that of a clause inside.
    Of(&'a Tree),
    /// It is what the value of a clause inside gives.
    ResultOf(&'a Tree),
}

impl<'a> Known<'a> {
    /// How many arguments of the procedure are references.
    pub fn references(self) -> Result<u32, AllocError>
        ensures { IfOk result (λ n. n ≡ reference_arguments (type_in self.entry)) }
    {
        match self {
            Known::Nothing => Ok(0),
            Known::Type(ty) => references_of_type(ty),
            Known::Literal(body) => references_of_params(body.params.as_slice()),
        }
    }

    /// What is known of its result.
    pub fn result(self) -> Known<'a>
        ensures { called (type_in result) ≡ called (result_of (type_in self.entry)) }
    {
        match self {
            Known::Nothing => Known::Nothing,
            Known::Type(ty) => result_of_type(ty),
            Known::Literal(body) => Known::Type(&body.gives),
        }
    }

    // The same, so often.
    fn results(self, times: u32) -> Known<'a>
        ensures { called (type_in result) ≡ called (results times (type_in self.entry)) }
    {
        let mut known = self;
        let mut left = times;
        while left > 0 {
            known = known.result();
            left -= 1;
        }
        known
    }

    /// What is known of a link, where this is known of its first part.
    pub fn behind(self, link: &'a Tree) -> Known<'a>
        ensures { called (type_in result) ≡ called (type_behind (type_in self.entry) (node_of link.now)) }
    {
        match &*link.form {
            TreeForm::Call { .. } => self.result(),
            TreeForm::Field { ty, .. } => Known::Type(ty),
            TreeForm::Element { ty, .. } => Known::Type(ty),
            _ => Known::Nothing,
        }
    }
}

/// What is known of the type of what a clause gives. The only fault is that it is found after too many calls to be counted.
pub fn known_of(tree: &Tree) -> Result<Known, AllocError>
    ensures { IfOk result (λ known. called (type_in known) ≡ called (type_of (node_of tree.now))) }
{
    let mut rest = tree;
    let mut calls = 0;
    loop {
        match type_source(rest) {
            Source::Here(known) => return Ok(known.results(calls)),
            Source::Of(inner) => rest = inner,
            Source::ResultOf(inner) => {
                calls = sum(calls, 1)?;
                rest = inner;
            }
        }
    }
}

fn type_source(tree: &Tree) -> Source
    ensures { IsSource (node_of tree.now) result }
{
    match &*tree.form {
        TreeForm::Name { ty, .. } => Source::Here(Known::Type(ty)),
        TreeForm::Field { ty, .. } => Source::Here(Known::Type(ty)),
        TreeForm::Element { ty, .. } => Source::Here(Known::Type(ty)),
        TreeForm::Fill { ty, .. } => Source::Here(Known::Type(ty)),
        TreeForm::Elems { ty, .. } => Source::Here(Known::Type(ty)),
        TreeForm::Proc(body) => Source::Here(Known::Literal(body)),
        TreeForm::Block { items, .. } => last_source(items.as_slice()),
        TreeForm::IfElse { b, .. } => Source::Of(b),
        TreeForm::Case { d, .. } => Source::Of(d),
        TreeForm::Call { f, .. } => Source::ResultOf(f),
        _ => Source::Here(Known::Nothing),
    }
}

fn last_source(items: &[Tree]) -> Source
    ensures { IsLastSource (nodes_in items.now) result }
{
    match items.last() {
        Some(last) => Source::Of(last),
        None => Source::Here(Known::Nothing),
    }
}

fn references_of_type(ty: &Ty) -> Result<u32, AllocError>
    ensures { IfOk result (λ n. n ≡ reference_arguments (ty_view ty.now)) }
{
    match ty {
        Ty::Proc(signature) => references_of(signature.parameters.as_slice()),
        Ty::Int | Ty::Bool | Ty::Str | Ty::Pntr | Ty::Void | Ty::Vector(_) => Ok(0),
    }
}

fn result_of_type(ty: &Ty) -> Known
    ensures { called (type_in result) ≡ called (result_of (ty_view ty.now)) }
{
    match ty {
        Ty::Proc(signature) => Known::Type(&signature.gives),
        Ty::Int | Ty::Bool | Ty::Str | Ty::Pntr | Ty::Void | Ty::Vector(_) => Known::Nothing,
    }
}

fn references_of(types: &[Ty]) -> Result<u32, AllocError>
    ensures { IfOk result (λ n. n ≡ references_in (ty_views types.now)) }
{
    let mut count = 0;
    for ty in types {
        count = sum(count, reference(ty))?;
    }
    Ok(count)
}

fn references_of_params(params: &[Param]) -> Result<u32, AllocError>
    ensures { IfOk result (λ n. n ≡ references_in (types_of_params (params_of params.now))) }
{
    let mut count = 0;
    for param in params {
        count = sum(count, reference(&param.ty))?;
    }
    Ok(count)
}

// 1 for a reference.
fn reference(ty: &Ty) -> u32
    ensures { result ≡ references_in (view.more (ty_view ty.now) view.none) }
{
    if is_number(ty) { 0 } else { 1 }
}
