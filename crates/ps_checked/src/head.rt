ghost use Rattle.ps_base.specs.TyView.{ty_view};
ghost use Rattle.ps_program.specs.NodeView.{nodes_in};
ghost use Rattle.ps_declared.specs.inside.Answers.{IsMade};
ghost use Rattle.ps_checked.specs.inside.Forms.{head_node};

use ps_base::bytes::Bytes;
use ps_base::line::Line;
use ps_base::list::List;
use ps_base::ty::Ty;
use ps_declared::clause::Clause;
use ps_declared::fault::CheckFault;
use ps_program::form::{Tree, TreeForm};
use std::alloc::Global;
use std::rc::Rc;

/// What takes arguments of given types.
pub enum Head {
    Call(Tree),
    /// The class of this text.
    Make(Rc<Bytes>),
    /// The procedure of the library with this code.
    Lib(u8),
}

impl Drop for Head {
    fn drop(self) {
        match self {
            Head::Call(_) => (),
            Head::Make(_) => (),
            Head::Lib(_) => (),
        }
    }
}

impl Head {
    /// The clause with these arguments, of this type. The only fault is `Memory`.
    pub fn clause(
        self,
        alloc: Global,
        line: Line,
        args: Vec<Tree>,
        gives: Ty,
    ) -> Result<Clause, CheckFault>
        ensures { IsMade (head_node self line (nodes_in args.items)) (ty_view gives) result }
    {
        let args = List::new(args);
        match self {
            Head::Call(f) => Clause::new(alloc, TreeForm::Call { f, args, line }, gives),
            Head::Make(class) => Clause::new(alloc, TreeForm::Make { class, args }, gives),
            Head::Lib(code) => Clause::new(alloc, TreeForm::Lib { code, args, line }, gives),
        }
    }
}
