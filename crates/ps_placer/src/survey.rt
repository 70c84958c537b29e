ghost use Rattle.std.specs.Prelude.{◌≡◌, ◌+◌, ℕ, false, OnOk, IfOk, [], ◌∷◌, map};
ghost use Rattle.ps_program.specs.NodeView.{node_of, nodes_in, body_of, params_of};
ghost use Rattle.ps_program.specs.inside.Listed.{literals_of};
ghost use Rattle.ps_program.specs.inside.PartsView.{arms_in, further_in};
ghost use Rattle.ps_typing.specs.Mentions.{number_of, kept_names, is_among, seen, numbers};
ghost use Rattle.ps_typing.specs.Program.{bodies};
ghost use Rattle.ps_placer.specs.inside.Marks.{marks, marks_of, marks_in, marks_alone, marks_parts, marks_body, marks_all, marks_arms, least as least_of, is_kept as is_kept_of, join, no_marks};

use crate::table::Table;
use ps_program::body::{Body, Param};
use ps_program::form::{Arm, Tree, TreeForm};
use ps_program::parts::{Further, Parts};
use ps_program::place::Place;
use std::alloc::{AllocError, Global};

/// What a body tells of its names: of each, inside how many literals it is mentioned at most, and declared at least.
#[derive(Drop)]
pub struct Survey {
    pub mentioned: Table<u32>,
    pub declared: Table<Option<u32>>,
}

/// The number of a name, which is its place until it has a better one.
pub fn number(place: Place) -> u32
    ensures { result ≡ number_of place }
{
    match place {
        Place::Plain { slot } => slot,
        Place::Kept { up: _, slot } => slot,
    }
}

/// The survey of a program, of which is told whether a procedure literal stands in it: without one it keeps no name, and isn't gone
/// over.
pub fn surveyed(alloc: Global, body: &Body, literal: bool) -> Result<Survey, AllocError>
    requires { literal ≡ false → bodies (body_of body.now) ≡ body_of body.now ∷ [] }
    ensures { IfOk result (λ made. (k : ℕ) → is_kept_of (marks_of made) k ≡ is_among (kept_names (body_of body.now)) k) }
{
    let mut survey = Survey::new(alloc);
    if literal {
        survey.body(body, 0)?;
    }
    Ok(survey)
}

impl Survey {
    fn new(alloc: Global) -> Survey
        ensures { marks_of result ≡ no_marks }
    {
        Survey {
            mentioned: Table::new(alloc, 0),
            declared: Table::new(alloc, None),
        }
    }

    /// Whether a name is kept in a scope.
    pub fn is_kept(&self, name: u32) -> bool
        ensures { result ≡ is_kept_of (marks_of self.now) name }
    {
        match self.declared.get(name) {
            Some(declared) => declared < self.mentioned.get(name),
            None => false,
        }
    }

    // A body inside so many literals.
    #[cycle(survey)]
    fn body(&mut self, body: &Body, literals: u32) -> Result<(), AllocError>
        ensures { OnOk result (marks_of self.new ≡ join (marks_of self.old) (marks_body literals (body_of body.now))) }
    {
        self.params(body.params.as_slice(), literals)?;
        self.tree(&body.tree, literals)
    }

    // The first parts are gone into by the loop, since they stand inside one another as far as the text is long.
    #[cycle(survey)]
    fn tree(&mut self, tree: &Tree, literals: u32) -> Result<(), AllocError>
        ensures { OnOk result (marks_of self.new ≡ join (marks_of self.old) (marks literals (node_of tree.now))) }
    {
        let mut rest = tree;
        loop {
            match rest.parts() {
                Parts::Literal(body) => return self.body(body, one_more(literals)?),
                Parts::Clauses {
                    first: Some(first),
                    further,
                } => {
                    self.alone(rest, literals)?;
                    self.further(further, literals)?;
                    rest = first;
                }
                Parts::Clauses {
                    first: None,
                    further,
                } => {
                    self.alone(rest, literals)?;
                    return self.further(further, literals);
                }
            }
        }
    }

    #[cycle(survey)]
    fn further(&mut self, further: Further, literals: u32) -> Result<(), AllocError>
        ensures { OnOk result (marks_of self.new ≡ join (marks_of self.old) (marks_parts literals (further_in further.entry))) }
    {
        match further {
            Further::Nothing => Ok(()),
            Further::One(b) => self.tree(b, literals),
            Further::Two(b, c) => self.two(b, c, literals),
            Further::Three(b, c, d) => {
                self.two(b, c, literals)?;
                self.tree(d, literals)
            }
            Further::OneBranch(a) => self.tree(a, literals),
            Further::TwoBranches(a, b) => self.two(a, b, literals),
            Further::Branches(items) => self.all(items, literals),
            Further::Operands(items) => self.all(items, literals),
            Further::Arms(arms, d) => {
                self.arms(arms, literals)?;
                self.tree(d, literals)
            }
        }
    }

    #[cycle(survey)]
    fn two(&mut self, a: &Tree, b: &Tree, literals: u32) -> Result<(), AllocError>
        ensures { OnOk result (marks_of self.new ≡ join (marks_of self.old) (join (marks literals (node_of a.now)) (marks literals (node_of b.now)))) }
    {
        self.tree(a, literals)?;
        self.tree(b, literals)
    }

    #[cycle(survey)]
    fn all(&mut self, items: &[Tree], literals: u32) -> Result<(), AllocError>
        ensures { OnOk result (marks_of self.new ≡ join (marks_of self.old) (marks_all literals (nodes_in items.now))) }
    {
        for item in items {
            self.tree(item, literals)?;
        }
        Ok(())
    }

    #[cycle(survey)]
    fn arms(&mut self, arms: &[Arm], literals: u32) -> Result<(), AllocError>
        ensures { OnOk result (marks_of self.new ≡ join (marks_of self.old) (marks_arms literals (arms_in arms.now))) }
    {
        for arm in arms {
            self.all(arm.labels.as_slice(), literals)?;
            self.tree(&arm.a, literals)?;
        }
        Ok(())
    }

    fn params(&mut self, params: &[Param], literals: u32) -> Result<(), AllocError>
        ensures { OnOk result (marks_of self.new ≡ join (marks_of self.old) (marks_in literals [] (map (λ k. seen k 0) (numbers (params_of params.now))))) }
    {
        for param in params {
            self.declare(param.place, literals)?;
        }
        Ok(())
    }

    // A clause by itself, which is no literal.
    fn alone(&mut self, tree: &Tree, literals: u32) -> Result<(), AllocError>
        ensures { literals_of (node_of tree.now) ≡ [] → OnOk result (marks_of self.new ≡ join (marks_of self.old) (marks_alone literals (node_of tree.now))) }
    {
        match &*tree.form {
            TreeForm::Name { place, .. } => self.mention(*place, literals),
            TreeForm::SetName { place, .. } => self.mention(*place, literals),
            TreeForm::Let { place, .. } => self.declare(*place, literals),
            TreeForm::For(it) => self.declare(it.control, literals),
            _ => Ok(()),
        }
    }

    fn mention(&mut self, place: Place, literals: u32) -> Result<(), AllocError>
        ensures { OnOk result (marks_of self.new ≡ join (marks_of self.old) (marks_in literals (seen (number_of place) 0 ∷ []) [])) }
    {
        let name = number(place);
        let deepest = self.mentioned.get(name).max(literals);
        self.mentioned.set(name, deepest)
    }

    fn declare(&mut self, place: Place, literals: u32) -> Result<(), AllocError>
        ensures { OnOk result (marks_of self.new ≡ join (marks_of self.old) (marks_in literals [] (seen (number_of place) 0 ∷ []))) }
    {
        let name = number(place);
        let least = least(self.declared.get(name), literals);
        self.declared.set(name, Some(least))
    }
}

fn least(known: Option<u32>, literals: u32) -> u32
    ensures { Some result ≡ least_of known (Some literals) }
{
    match known {
        Some(known) => known.min(literals),
        None => literals,
    }
}

// One literal more.
fn one_more(literals: u32) -> Result<u32, AllocError>
    ensures { IfOk result (λ made. made ≡ literals + 1) }
{
    match literals.checked_add(1) {
        Some(made) => Ok(made),
        None => Err(AllocError),
    }
}
