//! Each form of the tree, made of its parts: the clauses `a`, `b`, `c` and `d`, which are names on line 1, and others beside them.

use crate::show::put_shown;
use parsed_texts::ps_base::bytes::Bytes;
use parsed_texts::ps_base::line::Line;
use parsed_texts::ps_base::operator::{Operator, Relation};
use parsed_texts::ps_base::ty::Ty;
use parsed_texts::ps_tree::build::{
    apply, arm_of, assign, bound_of, case_of, compare, elems, for_of, form_at, group_of, if_do,
    if_else, is_of, item_of, join, let_of, name_of, negation, not, part_of, plus, proc_of,
    procedure_type, repeat_of, sequence, structure_of, vector_of, vector_type, while_of, write_of,
};
use parsed_texts::ps_tree::fault::ParseFault;
use parsed_texts::ps_tree::ps_symbols::kind::Operation;
use parsed_texts::ps_tree::rough::{Group, Named, Rough, RoughArm, RoughForm, RoughItem};
use row_words::table_rows::Buffer;
use std::alloc::{AllocError, Global};

const LINE: Line = Line(2);

// What a form is made of.
#[derive(Clone, Copy)]
enum Form {
    One(OfOne),
    Two(OfTwo),
    Three(OfThree),
    Kinds(OfKinds),
}

// The forms of one clause.
#[derive(Clone, Copy)]
enum OfOne {
    Not,
    Plus,
    Minus,
    UpperBound,
    Sequence,
}

// The forms of two clauses.
#[derive(Clone, Copy)]
enum OfTwo {
    IfDo,
    While,
    Repeat,
    Assign,
    Or,
    Subtract,
    Less,
    Apply,
}

// The forms of three clauses.
#[derive(Clone, Copy)]
enum OfThree {
    IfElse,
    RepeatDo,
    Part,
    Vector,
}

// The forms of parts of several kinds.
#[derive(Clone, Copy)]
enum OfKinds {
    For,
    ForBy,
    Case,
    Isnt,
    Elements,
    Write,
    Int,
    Variable,
    Structure,
    Procedure,
}

// The forms by the words that name them.
const FORMS: [(&[u8], Form); 27] = [
    (b"not", Form::One(OfOne::Not)),
    (b"plus", Form::One(OfOne::Plus)),
    (b"minus", Form::One(OfOne::Minus)),
    (b"upper bound", Form::One(OfOne::UpperBound)),
    (b"sequence", Form::One(OfOne::Sequence)),
    (b"if do", Form::Two(OfTwo::IfDo)),
    (b"while", Form::Two(OfTwo::While)),
    (b"repeat", Form::Two(OfTwo::Repeat)),
    (b"assign", Form::Two(OfTwo::Assign)),
    (b"or", Form::Two(OfTwo::Or)),
    (b"subtract", Form::Two(OfTwo::Subtract)),
    (b"less", Form::Two(OfTwo::Less)),
    (b"apply", Form::Two(OfTwo::Apply)),
    (b"if else", Form::Three(OfThree::IfElse)),
    (b"repeat do", Form::Three(OfThree::RepeatDo)),
    (b"part", Form::Three(OfThree::Part)),
    (b"vector", Form::Three(OfThree::Vector)),
    (b"for", Form::Kinds(OfKinds::For)),
    (b"for by", Form::Kinds(OfKinds::ForBy)),
    (b"case", Form::Kinds(OfKinds::Case)),
    (b"isnt", Form::Kinds(OfKinds::Isnt)),
    (b"elements", Form::Kinds(OfKinds::Elements)),
    (b"write", Form::Kinds(OfKinds::Write)),
    (b"int", Form::Kinds(OfKinds::Int)),
    (b"variable", Form::Kinds(OfKinds::Variable)),
    (b"structure", Form::Kinds(OfKinds::Structure)),
    (b"procedure", Form::Kinds(OfKinds::Procedure)),
];

/// Writes the form that a row names, made on line 2, as a line of text.
pub fn put_form(out: &mut Buffer, name: &[u8]) {
    match form_called(name) {
        Some(form) => put_made(out, form),
        None => out.fail(),
    }
}

fn form_called(name: &[u8]) -> Option<Form> {
    for (known, form) in &FORMS {
        if *known == name {
            return Some(*form);
        }
    }
    None
}

fn put_made(out: &mut Buffer, form: Form) {
    match made(out.alloc(), form) {
        Ok(made) => put_shown(out, &made),
        Err(_) => out.fail(),
    }
}

fn made(alloc: Global, form: Form) -> Result<Rough, ParseFault> {
    match form {
        Form::One(form) => of_one(alloc, form, leaf(alloc, b"a")?),
        Form::Two(form) => of_two(alloc, form),
        Form::Three(form) => of_three(alloc, form),
        Form::Kinds(form) => of_kinds(alloc, form),
    }
}

fn named(alloc: Global, name: &[u8]) -> Result<Named, AllocError> {
    Ok(Named {
        name: Bytes::new(Vec::from_slice(alloc, name)?),
        line: Line(1),
    })
}

fn leaf(alloc: Global, name: &[u8]) -> Result<Rough, ParseFault> {
    name_of(alloc, named(alloc, name)?)
}

fn one<T: Drop>(alloc: Global, item: T) -> Result<Vec<T>, AllocError> {
    let mut items = Vec::new(alloc);
    items.push(item)?;
    Ok(items)
}

// A list of one such name alone.
fn one_leaf(alloc: Global, name: &[u8]) -> Result<Vec<Rough>, ParseFault> {
    let leaf = leaf(alloc, name)?;
    Ok(one(alloc, leaf)?)
}

// Two names of one type.
fn groups(alloc: Global) -> Result<Vec<Group>, AllocError> {
    let group = group(alloc)?;
    one(alloc, group)
}

fn group(alloc: Global) -> Result<Group, AllocError> {
    let more = one_named(alloc, b"b")?;
    Ok(group_of(Ty::Int, named(alloc, b"a")?, more))
}

fn one_named(alloc: Global, name: &[u8]) -> Result<Vec<Named>, AllocError> {
    let named = named(alloc, name)?;
    one(alloc, named)
}

// The type `proc(*bool -> int)`.
fn types(alloc: Global) -> Result<Ty, ParseFault> {
    let parameters = one_type(alloc)?;
    procedure_type(alloc, parameters, Ty::Int)
}

fn one_type(alloc: Global) -> Result<Vec<Ty>, ParseFault> {
    let element = vector_type(alloc, Ty::Bool)?;
    Ok(one(alloc, element)?)
}

fn of_one(alloc: Global, form: OfOne, a: Rough) -> Result<Rough, ParseFault> {
    match form {
        OfOne::Not => not(alloc, a, LINE),
        OfOne::Plus => plus(alloc, a, LINE),
        OfOne::Minus => negation(alloc, a, LINE),
        OfOne::UpperBound => bound_of(alloc, true, a, LINE),
        OfOne::Sequence => sequence_of_one(alloc, a),
    }
}

fn sequence_of_one(alloc: Global, a: Rough) -> Result<Rough, ParseFault> {
    sequence(alloc, one(alloc, a)?, LINE)
}

fn of_two(alloc: Global, form: OfTwo) -> Result<Rough, ParseFault> {
    let a = leaf(alloc, b"a")?;
    let b = leaf(alloc, b"b")?;
    of_pair(alloc, form, a, b)
}

fn of_pair(alloc: Global, form: OfTwo, a: Rough, b: Rough) -> Result<Rough, ParseFault> {
    match form {
        OfTwo::IfDo => if_do(alloc, a, b, LINE),
        OfTwo::While => while_of(alloc, a, b, LINE),
        OfTwo::Repeat => repeat_of(alloc, a, b, None, LINE),
        OfTwo::Assign => assign(alloc, a, b, LINE),
        OfTwo::Or => join(alloc, Operation::Or, a, b, LINE),
        OfTwo::Subtract => join(alloc, Operation::Arith(Operator::Sub), a, b, LINE),
        OfTwo::Less => compare(alloc, Relation::Less, a, b, LINE),
        OfTwo::Apply => apply_to_one(alloc, a, b),
    }
}

fn apply_to_one(alloc: Global, a: Rough, b: Rough) -> Result<Rough, ParseFault> {
    apply(alloc, a, one(alloc, b)?, LINE)
}

fn of_three(alloc: Global, form: OfThree) -> Result<Rough, ParseFault> {
    let a = leaf(alloc, b"a")?;
    let b = leaf(alloc, b"b")?;
    let c = leaf(alloc, b"c")?;
    match form {
        OfThree::IfElse => if_else(alloc, a, b, c, LINE),
        OfThree::RepeatDo => repeat_of(alloc, a, b, Some(c), LINE),
        OfThree::Part => part_of(alloc, a, b, c, LINE),
        OfThree::Vector => vector_of(alloc, a, b, c, LINE),
    }
}

fn of_kinds(alloc: Global, form: OfKinds) -> Result<Rough, ParseFault> {
    match form {
        OfKinds::For => loop_by(alloc, None),
        OfKinds::ForBy => loop_by_step(alloc),
        OfKinds::Case => one_arm(alloc),
        OfKinds::Isnt => is_none_of(alloc),
        OfKinds::Elements => elements(alloc),
        OfKinds::Write => one_item(alloc),
        OfKinds::Int => form_at(alloc, RoughForm::Int(7), LINE),
        OfKinds::Variable => variable(alloc),
        OfKinds::Structure => structure(alloc),
        OfKinds::Procedure => procedure(alloc),
    }
}

fn is_none_of(alloc: Global) -> Result<Rough, ParseFault> {
    let class = named(alloc, b"c")?;
    is_of(alloc, leaf(alloc, b"a")?, class, true, LINE)
}

fn elements(alloc: Global) -> Result<Rough, ParseFault> {
    let items = one_leaf(alloc, b"b")?;
    elems(alloc, leaf(alloc, b"a")?, Ty::Bool, items, LINE)
}

fn one_item(alloc: Global) -> Result<Rough, ParseFault> {
    let item = item(alloc)?;
    write_of(alloc, one(alloc, item)?, LINE)
}

fn item(alloc: Global) -> Result<RoughItem, ParseFault> {
    let width = leaf(alloc, b"b")?;
    Ok(item_of(leaf(alloc, b"a")?, Some(width), LINE))
}

fn variable(alloc: Global) -> Result<Rough, ParseFault> {
    let name = named(alloc, b"x")?;
    let_of(alloc, name, true, leaf(alloc, b"a")?, LINE)
}

fn structure(alloc: Global) -> Result<Rough, ParseFault> {
    let fields = groups(alloc)?;
    structure_of(alloc, named(alloc, b"s")?, fields, LINE)
}

fn procedure(alloc: Global) -> Result<Rough, ParseFault> {
    let params = groups(alloc)?;
    procedure_with(alloc, params, types(alloc)?)
}

fn procedure_with(alloc: Global, params: Vec<Group>, gives: Ty) -> Result<Rough, ParseFault> {
    proc_of(alloc, params, gives, leaf(alloc, b"a")?, LINE)
}

fn loop_by_step(alloc: Global) -> Result<Rough, ParseFault> {
    loop_by(alloc, Some(leaf(alloc, b"d")?))
}

fn loop_by(alloc: Global, by: Option<Rough>) -> Result<Rough, ParseFault> {
    let from = leaf(alloc, b"a")?;
    loop_from(alloc, from, leaf(alloc, b"b")?, by)
}

fn loop_from(
    alloc: Global,
    from: Rough,
    to: Rough,
    by: Option<Rough>,
) -> Result<Rough, ParseFault> {
    let turn = leaf(alloc, b"c")?;
    for_of(alloc, named(alloc, b"i")?, from, to, by, turn, LINE)
}

fn one_arm(alloc: Global) -> Result<Rough, ParseFault> {
    let arm = arm(alloc)?;
    case_with(alloc, one(alloc, arm)?)
}

fn arm(alloc: Global) -> Result<RoughArm, ParseFault> {
    let labels = one_leaf(alloc, b"b")?;
    Ok(arm_of(labels, leaf(alloc, b"c")?))
}

fn case_with(alloc: Global, arms: Vec<RoughArm>) -> Result<Rough, ParseFault> {
    let chosen = leaf(alloc, b"a")?;
    case_of(alloc, chosen, arms, leaf(alloc, b"d")?, LINE)
}
