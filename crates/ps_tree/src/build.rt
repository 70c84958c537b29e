ghost use Rattle.std.specs.Prelude.{◌≡◌, ◌∷◌, IfOk, IfErr};
ghost use Rattle.ps_base.specs.TyView.{ty_view, ty_views};
ghost use Rattle.ps_base.specs.TyView as view;
ghost use Rattle.ps_base.specs.List.{items_of};
ghost use Rattle.ps_tree.specs.declared.fault.ParseFault.TheVariants.{Memory};
ghost use Rattle.ps_tree.specs.Phrase.{phrase_of, form_of, named, of_type, names_in, group_of, groups_in, arm_of, item_of, at, arm, item};
ghost use Rattle.ps_tree.specs.Phrase as form;
ghost use Rattle.ps_tree.specs.PhraseLists.{phrases_in, arms_in, items_in, maybe_in};
ghost use Rattle.ps_tree.specs.Composing.{joined};

use crate::boxes::{boxed, boxed_if_any};
use crate::fault::ParseFault;
use crate::rough::{Group, Named, Rough, RoughArm, RoughForm, RoughItem, RoughRange};
use ps_base::line::Line;
use ps_base::list::List;
use ps_base::operator::Relation;
use ps_base::ty::{self, Ty};
use ps_symbols::kind::Operation;
use std::alloc::Global;

/// The type of vectors of these elements.
pub fn vector_type(alloc: Global, element: Ty) -> Result<Ty, ParseFault>
    ensures made { IfOk result (λ made. ty_view made ≡ view.Vector (ty_view element)) }
    ensures fault { IfErr result (λ fault. fault ≡ Memory) }
{
    match ty::vector_of(alloc, element) {
        Ok(made) => Ok(made),
        Err(_) => Err(ParseFault::Memory),
    }
}

/// The type of procedures of these parameters and this result.
pub fn procedure_type(alloc: Global, parameters: Vec<Ty>, gives: Ty) -> Result<Ty, ParseFault>
    ensures made { IfOk result (λ made. ty_view made ≡ view.Proc (ty_views parameters.items) (ty_view gives)) }
    ensures fault { IfErr result (λ fault. fault ≡ Memory) }
{
    match ty::procedure_of(alloc, parameters, gives) {
        Ok(made) => Ok(made),
        Err(_) => Err(ParseFault::Memory),
    }
}

/// A constant or a variable that is declared.
pub fn let_of(
    alloc: Global,
    name: Named,
    variable: bool,
    e: Rough,
    line: Line,
) -> Result<Rough, ParseFault>
    ensures made { IfOk result (λ made. phrase_of made ≡ at (form.Let (named name) variable (phrase_of e)) line) }
    ensures fault { IfErr result (λ fault. fault ≡ Memory) }
{
    let name = boxed(alloc, name)?;
    let form = RoughForm::Let { name, variable, e };
    form_at(alloc, form, line)
}

/// A class of structures that is declared, with its fields.
pub fn structure_of(
    alloc: Global,
    name: Named,
    fields: Vec<Group>,
    line: Line,
) -> Result<Rough, ParseFault>
    ensures made { IfOk result (λ made. phrase_of made ≡ at (form.Structure (named name) (groups_in fields.items)) line) }
    ensures fault { IfErr result (λ fault. fault ≡ Memory) }
{
    let name = boxed(alloc, name)?;
    let fields = fitted(fields);
    let form = RoughForm::Structure { name, fields };
    form_at(alloc, form, line)
}

/// A clause that is done where a condition holds.
pub fn if_do(alloc: Global, c: Rough, a: Rough, line: Line) -> Result<Rough, ParseFault>
    ensures made { IfOk result (λ made. phrase_of made ≡ at (form.IfDo (phrase_of c) (phrase_of a)) line) }
    ensures fault { IfErr result (λ fault. fault ≡ Memory) }
{
    let form = RoughForm::IfDo { c, a };
    form_at(alloc, form, line)
}

/// The choice between two clauses by a condition.
pub fn if_else(alloc: Global, c: Rough, a: Rough, b: Rough, line: Line) -> Result<Rough, ParseFault>
    ensures made { IfOk result (λ made. phrase_of made ≡ at (form.IfElse (phrase_of c) (phrase_of a) (phrase_of b)) line) }
    ensures fault { IfErr result (λ fault. fault ≡ Memory) }
{
    let form = RoughForm::IfElse { c, a, b };
    form_at(alloc, form, line)
}

/// A loop with its test before each turn.
pub fn while_of(alloc: Global, c: Rough, a: Rough, line: Line) -> Result<Rough, ParseFault>
    ensures made { IfOk result (λ made. phrase_of made ≡ at (form.While (phrase_of c) (phrase_of a)) line) }
    ensures fault { IfErr result (λ fault. fault ≡ Memory) }
{
    let form = RoughForm::While { c, a };
    form_at(alloc, form, line)
}

/// A loop with its test after each turn, and a clause between the turns, if there is one.
pub fn repeat_of(
    alloc: Global,
    a: Rough,
    c: Rough,
    b: Option<Rough>,
    line: Line,
) -> Result<Rough, ParseFault>
    ensures made { IfOk result (λ made. phrase_of made ≡ at (form.Repeat (phrase_of a) (phrase_of c) (maybe_in b)) line) }
    ensures fault { IfErr result (λ fault. fault ≡ Memory) }
{
    let b = boxed_if_any(alloc, b)?;
    let form = RoughForm::Repeat { a, c, b };
    form_at(alloc, form, line)
}

/// A loop over the values from one to another, by a step, if there is one.
pub fn for_of(
    alloc: Global,
    name: Named,
    a: Rough,
    b: Rough,
    c: Option<Rough>,
    s: Rough,
    line: Line,
) -> Result<Rough, ParseFault>
    ensures made { IfOk result (λ made. phrase_of made ≡ at (form.For (named name) (phrase_of a) (phrase_of b) (maybe_in c) (phrase_of s)) line) }
    ensures fault { IfErr result (λ fault. fault ≡ Memory) }
{
    let name = boxed(alloc, name)?;
    let range = boxed(alloc, RoughRange { a, b, c })?;
    let form = RoughForm::For { name, range, s };
    form_at(alloc, form, line)
}

/// The choice of an arm by a value.
pub fn case_of(
    alloc: Global,
    e: Rough,
    arms: Vec<RoughArm>,
    d: Rough,
    line: Line,
) -> Result<Rough, ParseFault>
    ensures made { IfOk result (λ made. phrase_of made ≡ at (form.Case (phrase_of e) (arms_in arms.items) (phrase_of d)) line) }
    ensures fault { IfErr result (λ fault. fault ≡ Memory) }
{
    let arms = boxed(alloc, fitted(arms))?;
    let form = RoughForm::Case { e, arms, d };
    form_at(alloc, form, line)
}

/// An arm of a `case`. Takes no memory.
pub fn arm_of(labels: Vec<Rough>, a: Rough) -> RoughArm
    ensures { arm_of result ≡ arm (phrases_in labels.items) (phrase_of a) }
{
    let labels = fitted(labels);
    RoughArm { labels, a }
}

/// An item of a `write`. Takes no memory.
pub fn item_of(e: Rough, w: Option<Rough>, line: Line) -> RoughItem
    ensures { item_of result ≡ item (phrase_of e) (maybe_in w) line }
{
    RoughItem { e, w, line }
}

/// Names that are declared of one type. Takes no memory.
pub fn group_of(ty: Ty, first: Named, more: Vec<Named>) -> Group
    ensures { group_of result ≡ of_type (ty_view ty) first ∷ names_in (ty_view ty) more.items }
{
    let more = fitted(more);
    Group { ty, first, more }
}

/// A procedure.
pub fn proc_of(
    alloc: Global,
    params: Vec<Group>,
    gives: Ty,
    s: Rough,
    line: Line,
) -> Result<Rough, ParseFault>
    ensures made { IfOk result (λ made. phrase_of made ≡ at (form.Proc (groups_in params.items) (ty_view gives) (phrase_of s)) line) }
    ensures fault { IfErr result (λ fault. fault ≡ Memory) }
{
    let params = fitted(params);
    let gives = boxed(alloc, gives)?;
    let form = RoughForm::Proc { params, gives, s };
    form_at(alloc, form, line)
}

/// A vector that is filled with one value.
pub fn vector_of(
    alloc: Global,
    l: Rough,
    u: Rough,
    e: Rough,
    line: Line,
) -> Result<Rough, ParseFault>
    ensures made { IfOk result (λ made. phrase_of made ≡ at (form.Vector (phrase_of l) (phrase_of u) (phrase_of e)) line) }
    ensures fault { IfErr result (λ fault. fault ≡ Memory) }
{
    let form = RoughForm::Vector { l, u, e };
    form_at(alloc, form, line)
}

/// An assignment.
pub fn assign(alloc: Global, x: Rough, e: Rough, line: Line) -> Result<Rough, ParseFault>
    ensures made { IfOk result (λ made. phrase_of made ≡ at (form.Assign (phrase_of x) (phrase_of e)) line) }
    ensures fault { IfErr result (λ fault. fault ≡ Memory) }
{
    let form = RoughForm::Assign { x, e };
    form_at(alloc, form, line)
}

/// The clause of an operator that groups to the left.
pub fn join(
    alloc: Global,
    operation: Operation,
    a: Rough,
    b: Rough,
    line: Line,
) -> Result<Rough, ParseFault>
    ensures made { IfOk result (λ made. phrase_of made ≡ joined operation (phrase_of a) (phrase_of b) line) }
    ensures fault { IfErr result (λ fault. fault ≡ Memory) }
{
    let form = match operation {
        Operation::Or => RoughForm::Or { a, b },
        Operation::And => RoughForm::And { a, b },
        Operation::Join => RoughForm::Join { a, b },
        Operation::Arith(op) => RoughForm::Arith { op, a, b },
    };
    form_at(alloc, form, line)
}

/// A comparison.
pub fn compare(
    alloc: Global,
    op: Relation,
    a: Rough,
    b: Rough,
    line: Line,
) -> Result<Rough, ParseFault>
    ensures made { IfOk result (λ made. phrase_of made ≡ at (form.Compare op (phrase_of a) (phrase_of b)) line) }
    ensures fault { IfErr result (λ fault. fault ≡ Memory) }
{
    let form = RoughForm::Compare { op, a, b };
    form_at(alloc, form, line)
}

/// Whether a value is an object of a class.
pub fn is_of(
    alloc: Global,
    e: Rough,
    class: Named,
    negated: bool,
    line: Line,
) -> Result<Rough, ParseFault>
    ensures made { IfOk result (λ made. phrase_of made ≡ at (form.Is (phrase_of e) (named class) negated) line) }
    ensures fault { IfErr result (λ fault. fault ≡ Memory) }
{
    let class = boxed(alloc, class)?;
    let form = RoughForm::Is { e, class, negated };
    form_at(alloc, form, line)
}

/// A clause that is denied.
pub fn not(alloc: Global, e: Rough, line: Line) -> Result<Rough, ParseFault>
    ensures made { IfOk result (λ made. phrase_of made ≡ at (form.Not (phrase_of e)) line) }
    ensures fault { IfErr result (λ fault. fault ≡ Memory) }
{
    let form = RoughForm::Not { e };
    form_at(alloc, form, line)
}

/// A clause after a `+`.
pub fn plus(alloc: Global, e: Rough, line: Line) -> Result<Rough, ParseFault>
    ensures made { IfOk result (λ made. phrase_of made ≡ at (form.Plus (phrase_of e)) line) }
    ensures fault { IfErr result (λ fault. fault ≡ Memory) }
{
    let form = RoughForm::Plus { e };
    form_at(alloc, form, line)
}

/// A clause after a `-`.
pub fn negation(alloc: Global, e: Rough, line: Line) -> Result<Rough, ParseFault>
    ensures made { IfOk result (λ made. phrase_of made ≡ at (form.Neg (phrase_of e)) line) }
    ensures fault { IfErr result (λ fault. fault ≡ Memory) }
{
    let form = RoughForm::Neg { e };
    form_at(alloc, form, line)
}

/// A clause with arguments in round brackets after it.
pub fn apply(alloc: Global, f: Rough, args: Vec<Rough>, line: Line) -> Result<Rough, ParseFault>
    ensures made { IfOk result (λ made. phrase_of made ≡ at (form.Apply (phrase_of f) (phrases_in args.items)) line) }
    ensures fault { IfErr result (λ fault. fault ≡ Memory) }
{
    let args = fitted(args);
    let form = RoughForm::Apply { f, args };
    form_at(alloc, form, line)
}

/// A part of a string.
pub fn part_of(alloc: Global, s: Rough, i: Rough, n: Rough, line: Line) -> Result<Rough, ParseFault>
    ensures made { IfOk result (λ made. phrase_of made ≡ at (form.Part (phrase_of s) (phrase_of i) (phrase_of n)) line) }
    ensures fault { IfErr result (λ fault. fault ≡ Memory) }
{
    let form = RoughForm::Part { s, i, n };
    form_at(alloc, form, line)
}

/// A bound of a vector.
pub fn bound_of(alloc: Global, upper: bool, e: Rough, line: Line) -> Result<Rough, ParseFault>
    ensures made { IfOk result (λ made. phrase_of made ≡ at (form.Bound upper (phrase_of e)) line) }
    ensures fault { IfErr result (λ fault. fault ≡ Memory) }
{
    let form = RoughForm::Bound { upper, e };
    form_at(alloc, form, line)
}

/// A vector with these elements.
pub fn elems(
    alloc: Global,
    l: Rough,
    ty: Ty,
    items: Vec<Rough>,
    line: Line,
) -> Result<Rough, ParseFault>
    ensures made { IfOk result (λ made. phrase_of made ≡ at (form.Elems (phrase_of l) (ty_view ty) (phrases_in items.items)) line) }
    ensures fault { IfErr result (λ fault. fault ≡ Memory) }
{
    let ty = boxed(alloc, ty)?;
    let items = fitted(items);
    let form = RoughForm::Elems { l, ty, items };
    form_at(alloc, form, line)
}

/// A sequence of clauses.
pub fn sequence(alloc: Global, items: Vec<Rough>, line: Line) -> Result<Rough, ParseFault>
    ensures made { IfOk result (λ made. phrase_of made ≡ at (form.Sequence (phrases_in items.items)) line) }
    ensures fault { IfErr result (λ fault. fault ≡ Memory) }
{
    let form = RoughForm::Sequence {
        items: fitted(items),
    };
    form_at(alloc, form, line)
}

/// A `write`.
pub fn write_of(alloc: Global, items: Vec<RoughItem>, line: Line) -> Result<Rough, ParseFault>
    ensures made { IfOk result (λ made. phrase_of made ≡ at (form.Write (items_in items.items)) line) }
    ensures fault { IfErr result (λ fault. fault ≡ Memory) }
{
    let form = RoughForm::Write {
        items: fitted(items),
    };
    form_at(alloc, form, line)
}

/// A name that is used.
pub fn name_of(alloc: Global, name: Named) -> Result<Rough, ParseFault>
    ensures made { IfOk result (λ made. phrase_of made ≡ at (form.Name (named name).name) (named name).line) }
    ensures fault { IfErr result (λ fault. fault ≡ Memory) }
{
    let (name, line) = name.into_parts();
    let form = RoughForm::Name(name);
    form_at(alloc, form, line)
}

/// A form on its line.
pub fn form_at(alloc: Global, form: RoughForm, line: Line) -> Result<Rough, ParseFault>
    ensures made { IfOk result (λ made. phrase_of made ≡ at (form_of form) line) }
    ensures fault { IfErr result (λ fault. fault ≡ Memory) }
{
    let form = boxed(alloc, form)?;
    Ok(Rough { form, line })
}

// The list of these items, in no more memory than they need: most lists of a tree have one item or two.
fn fitted<T>(items: Vec<T>) -> List<T>
    ensures { items_of result ≡ items.items }
{
    let mut items = items;
    items.shrink_to_fit();
    List::new(items)
}
