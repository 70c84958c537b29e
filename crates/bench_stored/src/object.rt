/// What a loop reads in each turn.
#[derive(Clone, Copy)]
pub enum Object {
    /// The first field of a structure.
    Field,
    /// Its second field, which is itself a structure.
    Link,
    /// An element of a vector of ints.
    Element,
    /// What a procedure gives for the number of the turn.
    Call,
    /// A name of a scope.
    Kept,
}

/// Where it comes from.
#[derive(Clone, Copy)]
pub enum Origin {
    Stored,
    New,
}

impl Object {
    /// The object of this name.
    pub fn named(name: &str) -> Option<Object> {
        match name {
            "field" => Some(Object::Field),
            "link" => Some(Object::Link),
            "element" => Some(Object::Element),
            "call" => Some(Object::Call),
            "kept" => Some(Object::Kept),
            _ => None,
        }
    }
}

impl Origin {
    /// The origin of this name.
    pub fn named(name: &str) -> Option<Origin> {
        match name {
            "stored" => Some(Origin::Stored),
            "new" => Some(Origin::New),
            _ => None,
        }
    }
}

/// The names of the instructions that the loops are made of, with their codes and the letters of their operands.
pub const INSTRUCTIONS: &[u8] = b"int 1 v
nil 5
get.m 6 s
get.p 7 s
set.m 8 s
set.p 9 s
kept.m 10 u i
kept.p 11 u i
keep.m 12 u i
scope 14 c
jump 16 t
again 18 t
add 23 L
lt.m 30
make 45 c
field.m 46 c i L
field.p 47 c i L
set.field.p 49 c i L
fill.m 50 c L
elem.m 54 L
closure 60 c
call 61 n L
return 62 k
write.i 64 w L";

/// A store of a scope, and of what its names hold.
pub const STORE: &[u8] = b"main scope main.text nil link list next : 7
main.text text scope(int n;pntr p;*int v;proc(int->int) f)
link structure link.text link : 7
link.text text link(int n;pntr next)
list vector list.text : 1 7 7 7 7 7 7 7 7 7 7
list.text text *int
next closure next.code main :
next.code code 1 0 1 0 : next.type : get.m 0; int 1; add 1; return 1
next.type text proc(int->int)";

/// The class of the structures, the type of the vectors, and the text of the scopes.
pub const CLASS: &[u8] = b"link(int n;pntr next)";

pub const VECTOR: &[u8] = b"*int";

pub const NAMES: &[u8] = b"scope(int n;pntr p;*int v;proc(int->int) f)";

/// What a procedure does with the number of a turn: it gives the next one.
pub const NEXT: &[u8] = b"get.m 0; int 1; add 1; return 1";

impl Object {
    /// What stands before the loop: the object is reference local 0, or the current scope.
    pub fn before(self, origin: Origin) -> &'static [u8] {
        match (origin, self) {
            (Origin::Stored, Object::Field | Object::Link) => b"kept.p 0 1; set.p 0",
            (Origin::Stored, Object::Element) => b"kept.p 0 2; set.p 0",
            (Origin::Stored, Object::Call) => b"kept.p 0 3; set.p 0",
            (Origin::Stored, Object::Kept) => b"",
            (Origin::New, Object::Field | Object::Link) => {
                b"int 7; nil; make 0; set.p 0; get.p 0; get.p 0; set.field.p 0 1 1"
            }
            (Origin::New, Object::Element) => b"int 1; int 10; int 7; fill.m 1 1; set.p 0",
            (Origin::New, Object::Call) => b"closure 3; set.p 0",
            (Origin::New, Object::Kept) => b"scope 2; int 7; keep.m 0 0",
        }
    }

    /// What each turn does: number local 1 is what was read.
    pub fn clause(self) -> &'static [u8] {
        match self {
            Object::Field => b"get.p 0; field.m 0 0 1; set.m 1",
            Object::Link => b"get.p 0; field.p 0 1 1; set.p 0",
            Object::Element => b"get.p 0; int 5; elem.m 1; set.m 1",
            Object::Call => b"get.p 0; get.m 0; call 0 1; set.m 1",
            Object::Kept => b"kept.m 0 0; set.m 1",
        }
    }
}
