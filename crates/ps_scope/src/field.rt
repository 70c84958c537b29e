use ps_base::bytes::Bytes;
use ps_base::ty::Ty;
use ps_log::Named;
use std::rc::Rc;

/// A field in scope: its name, its class's canonical text, its position among the fields of the class from 0 on, and its type.
#[derive(Drop)]
pub struct Field {
    pub name: Bytes,
    pub class: Rc<Bytes>,
    pub index: u32,
    pub ty: Ty,
}

impl Named for Field {
    ghost name = { λ f. f.name };

    fn name(&self) -> &[u8] {
        self.name.as_slice()
    }
}
