ghost use Rattle.std.specs.Prelude.{◌≡◌, ◌+◌, ◌++◌, [], ◌∷◌, map, OnOk, IfOk};
ghost use Rattle.ps_base.specs.List.{items_of};
ghost use Rattle.ps_base.specs.TyView.{ty_view};
ghost use Rattle.ps_type_text.specs.Members.{field_of, fields_of};
ghost use Rattle.ps_program.specs.NodeView.{node_of, nodes_in, params_of};
ghost use Rattle.ps_typing.specs.Mentions.{number_of, numbers, common};
ghost use Rattle.ps_typing.specs.Placing.{Around, Locals, is_number as is_number_of, with_name as with_name_of, with_declared, place_of as place_of_name, field_at, scope_text as scope_text_of, inside, declared};
ghost use Rattle.ps_typing.specs.Placed.{with_params};
ghost use Rattle.ps_placer.specs.inside.Marks.{marks_of, is_kept as is_kept_of};
ghost use Rattle.ps_placer.specs.inside.Params.{text_in, placed_params};
ghost use Rattle.ps_placer.specs.inside.Standing.{Stands, Begins, chosen, declared_by, Enters, Leaves, Hides};

use crate::survey::{Survey, number};
use crate::table::Table;
use ps_base::bytes::Bytes;
use ps_base::list::List;
use ps_base::ty::Ty;
use ps_program::body::Param;
use ps_program::form::{Tree, TreeForm};
use ps_program::place::Place;
use ps_type_text::{Member, class_text};
use std::alloc::{AllocError, Global};
use std::mem;

/// What is known where a clause stands: the names of the program and which of them are kept, the next free local on each
/// stack and the locals of the names that have one, the scopes around, and where each name that they keep is found.
#[derive(Drop)]
pub struct Placer {
    pub alloc: Global,
    pub names: Vec<Member>,
    pub survey: Survey,
    pub nums: u32,
    pub refs: u32,
    pub locals: Table<u32>,
    pub scopes: u32,
    pub spots: Table<Option<Spot>>,
}

/// Where a kept name is found: in a scope, which is told by how many there are with those around it, and at a position
/// there.
#[derive(Clone, Copy)]
pub struct Spot {
    pub scope: u32,
    pub position: u32,
}

/// What is known again where a scope ends: how many scopes are around, and where the names that it keeps were found.
#[derive(Drop)]
pub struct Outer {
    pub scopes: u32,
    pub hidden: Vec<Hidden>,
}

/// Where a name was found before a scope hid it.
#[derive(Clone, Copy)]
pub struct Hidden {
    pub name: u32,
    pub spot: Option<Spot>,
}

impl Placer {
    /// Where no clause was placed yet.
    pub fn new(alloc: Global, names: Vec<Member>, survey: Survey) -> Placer
        ensures { Begins names.items survey result }
    {
        Placer {
            alloc,
            names,
            survey,
            nums: 0,
            refs: 0,
            locals: Table::new(alloc, 0),
            scopes: 0,
            spots: Table::new(alloc, None),
        }
    }

    /// Where a name is kept.
    pub fn place_of(&self, place: Place) -> Place
        ensures { (around : Around) (locals : Locals) → Stands self.now around locals → result ≡ place_of_name around locals place }
    {
        let name = number(place);
        match self.spots.get(name) {
            Some(spot) => Place::Kept {
                up: self.scopes.saturating_sub(spot.scope),
                slot: spot.position,
            },
            None => Place::Plain {
                slot: self.locals.get(name),
            },
        }
    }

    /// Where a name is kept inside the scope that keeps these: none, or it alone.
    pub fn place_inside(&self, kept: &[u32], place: Place) -> Place
        ensures { (around : Around) (locals : Locals) → Stands self.now around locals → kept.now ≡ common (number_of place ∷ []) around.kept → result ≡ place_of_name (inside around kept.now) locals place }
    {
        if kept.is_empty() {
            return self.place_of(place);
        }
        Place::Kept { up: 0, slot: 0 }
    }

    /// Takes so many locals of the number stack.
    pub fn take_numbers(&mut self, count: u32) -> Result<(), AllocError>
        ensures { OnOk result (self.new ≡ record self.old { nums = self.old.nums + count }) }
    {
        self.nums = sum(self.nums, count)?;
        Ok(())
    }

    /// Takes so many locals of the reference stack.
    pub fn take_references(&mut self, count: u32) -> Result<(), AllocError>
        ensures { OnOk result (self.new ≡ record self.old { refs = self.old.refs + count }) }
    {
        self.refs = sum(self.refs, count)?;
        Ok(())
    }

    /// Gives a name its local, which isn't kept.
    pub fn declare(&mut self, place: Place, ty: &Ty) -> Result<(), AllocError>
        ensures { OnOk result ((around : Around) (locals : Locals) → Stands self.old around locals → Stands self.new around (with_declared around (number_of place) (ty_view ty.now) locals)) }
    {
        if self.survey.is_kept(number(place)) {
            return Ok(());
        }
        self.with_name(place, ty)
    }

    /// Gives a name its local.
    pub fn with_name(&mut self, place: Place, ty: &Ty) -> Result<(), AllocError>
        ensures { OnOk result ((around : Around) (locals : Locals) → Stands self.old around locals → Stands self.new around (with_name_of (number_of place) (ty_view ty.now) locals)) }
    {
        let name = number(place);
        if is_number(ty) {
            self.locals.set(name, self.nums)?;
            self.take_numbers(1)
        } else {
            self.locals.set(name, self.refs)?;
            self.take_references(1)
        }
    }

    /// Gives parameters their locals, kept or not.
    pub fn declare_params(&mut self, params: &[Param]) -> Result<(), AllocError>
        ensures { OnOk result ((around : Around) (locals : Locals) → Stands self.old around locals → Stands self.new around (with_params (params_of params.now) locals)) }
    {
        for param in params {
            self.with_name(param.place, &param.ty)?;
        }
        Ok(())
    }

    /// Gives parameters their places.
    pub fn place_params(&self, params: &mut List<Param>)
        ensures { (around : Around) (locals : Locals) → Stands self.now around locals → params_of (items_of params.new) ≡ placed_params around locals (params_of (items_of params.old)) }
    {
        let mut list = mem::replace(params, List::new(Vec::new(self.alloc))).into_vec();
        for i in 0..list.len() {
            list[i].place = self.place_of(list[i].place);
        }
        *params = List::new(list);
    }

    /// The names that are kept, of those that the items of a sequence declare.
    pub fn kept_items(&self, items: &[Tree]) -> Result<Vec<u32>, AllocError>
        ensures { IfOk result (λ kept. kept.items ≡ chosen (is_kept_of (marks_of self.now.survey)) (declared (nodes_in items.now))) }
    {
        let mut kept = Vec::new(self.alloc);
        for item in items {
            self.push_kept_item(&mut kept, item)?;
        }
        Ok(kept)
    }

    fn push_kept_item(&self, kept: &mut Vec<u32>, item: &Tree) -> Result<(), AllocError>
        ensures { OnOk result (kept.new.items ≡ kept.old.items ++ chosen (is_kept_of (marks_of self.now.survey)) (declared_by (node_of item.now))) }
    {
        match &*item.form {
            TreeForm::Let { place, .. } => self.push_kept(kept, *place),
            _ => Ok(()),
        }
    }

    /// The names that are kept, of some parameters.
    pub fn kept_params(&self, params: &[Param]) -> Result<Vec<u32>, AllocError>
        ensures { IfOk result (λ kept. kept.items ≡ chosen (is_kept_of (marks_of self.now.survey)) (numbers (params_of params.now))) }
    {
        let mut kept = Vec::new(self.alloc);
        for param in params {
            self.push_kept(&mut kept, param.place)?;
        }
        Ok(kept)
    }

    /// The name of a control, where it is kept.
    pub fn kept_control(&self, control: Place) -> Result<Vec<u32>, AllocError>
        ensures { IfOk result (λ kept. kept.items ≡ chosen (is_kept_of (marks_of self.now.survey)) (number_of control ∷ [])) }
    {
        let mut kept = Vec::new(self.alloc);
        self.push_kept(&mut kept, control)?;
        Ok(kept)
    }

    fn push_kept(&self, kept: &mut Vec<u32>, place: Place) -> Result<(), AllocError>
        ensures { OnOk result (kept.new.items ≡ kept.old.items ++ chosen (is_kept_of (marks_of self.now.survey)) (number_of place ∷ [])) }
    {
        let name = number(place);
        if self.survey.is_kept(name) {
            kept.push(name)?;
        }
        Ok(())
    }

    /// The text of the scope that keeps these names: none where there are none.
    pub fn scope_text(&self, kept: &[u32]) -> Result<Option<Bytes>, AllocError>
        ensures { IfOk result (λ made. made ≡ scope_text_of (fields_of self.now.names.items) kept.now) }
    {
        if kept.is_empty() {
            return Ok(None);
        }
        let fields = self.fields(kept)?;
        let text = class_text(self.alloc, b"scope", fields.as_slice())?;
        Ok(Some(text))
    }

    /// The same, in a box.
    pub fn boxed_scope_text(&self, kept: &[u32]) -> Result<Option<Box<Bytes>>, AllocError>
        ensures { IfOk result (λ made. text_in made ≡ scope_text_of (fields_of self.now.names.items) kept.now) }
    {
        match self.scope_text(kept)? {
            Some(text) => Ok(Some(Box::new(self.alloc, text)?)),
            None => Ok(None),
        }
    }

    fn fields(&self, kept: &[u32]) -> Result<Vec<Member>, AllocError>
        ensures { IfOk result (λ made. fields_of made.items ≡ map (field_at (fields_of self.now.names.items)) kept.now) }
    {
        let mut fields = Vec::new(self.alloc);
        for name in kept {
            let field = self.field(*name)?;
            fields.push(field)?;
        }
        Ok(fields)
    }

    // The type of a name and what it is called.
    fn field(&self, name: u32) -> Result<Member, AllocError>
        ensures { IfOk result (λ made. field_of made ≡ field_at (fields_of self.now.names.items) name) }
    {
        let mut bytes = Vec::new(self.alloc);
        match self.names.get(name as usize) {
            Some(member) => {
                bytes.extend_from_slice(member.name.as_slice())?;
                let ty = member.ty.copy()?;
                Ok(Member {
                    ty,
                    name: Bytes::new(bytes),
                })
            }
            None => Ok(Member {
                ty: Ty::Void,
                name: Bytes::new(bytes),
            }),
        }
    }

    /// Goes into the scope that keeps these names, if there are any.
    pub fn enter(&mut self, kept: &[u32]) -> Result<Outer, AllocError>
        ensures { IfOk result (λ outer. Enters kept.now self.old self.new outer) }
    {
        let scopes = self.scopes;
        let mut hidden = Vec::new(self.alloc);
        if kept.is_empty() {
            return Ok(Outer { scopes, hidden });
        }
        self.scopes = sum(scopes, 1)?;
        let mut position = match u32::try_from(kept.len()) {
            Ok(count) => count,
            Err(_) => return Err(AllocError),
        };
        // The first of a name counts, so it is found last.
        while position > 0 {
            position -= 1;
            self.hide(&mut hidden, kept[position as usize], position)?;
        }
        Ok(Outer { scopes, hidden })
    }

    // Finds a name in the innermost scope from now on.
    fn hide(&mut self, hidden: &mut Vec<Hidden>, name: u32, position: u32) -> Result<(), AllocError>
        ensures { OnOk result (Hides name position self.old self.new hidden.old.items hidden.new.items) }
    {
        let spot = self.spots.get(name);
        hidden.push(Hidden { name, spot })?;
        let spot = Spot {
            scope: self.scopes,
            position,
        };
        self.spots.set(name, Some(spot))
    }

    /// Goes out of a scope.
    pub fn leave(&mut self, outer: Outer) -> Result<(), AllocError>
        ensures { OnOk result (Leaves outer self.old self.new) }
    {
        let Outer { scopes, hidden } = outer;
        self.scopes = scopes;
        let mut hidden = hidden;
        while let Some(it) = hidden.pop() {
            self.spots.set(it.name, it.spot)?;
        }
        Ok(())
    }
}

// Ints and bools stand on the number stack.
fn is_number(ty: &Ty) -> bool
    ensures { result ≡ is_number_of (ty_view ty.now) }
{
    match ty {
        Ty::Int | Ty::Bool => true,
        Ty::Str | Ty::Pntr | Ty::Void | Ty::Vector(_) | Ty::Proc(_) => false,
    }
}

// There is memory only for what can be counted.
fn sum(a: u32, b: u32) -> Result<u32, AllocError>
    ensures { IfOk result (λ made. made ≡ a + b) }
{
    match a.checked_add(b) {
        Some(made) => Ok(made),
        None => Err(AllocError),
    }
}
