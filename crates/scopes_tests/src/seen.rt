//! What is seen of a scope word by word.
ghost use Rattle.scopes.specs.swizzle.Heap.{IsHeld};

use memory_vault::obj_layout::header::Header;
use memory_vault::obj_layout::reference::Reference;
use row_words::table_rows::Buffer;
use scopes::swizzle::swizzle::Swizzle;

/// Writes the place of a scope, its header, its references and number words as they lie, and what lies after them.
pub fn put_seen(out: &mut Buffer, sw: &Swizzle, scope: u32)
    requires { IsHeld sw.now scope }
{
    put_counted(out, "place ", u64::from(scope));
    put_header(out, sw.header(scope));
    out.put("\nrefs");
    for slot in 0..sw.refs(scope) {
        put_reference(out, sw.peek(scope, slot));
    }
    out.put("\nnums");
    for index in 0..sw.nums(scope) {
        put_counted(out, " ", sw.num(scope, index));
    }
    put_counted(out, "\ntop ", u64::from(sw.top()));
    put_assigned(out, sw);
}

// A word, and a number after it.
fn put_counted(out: &mut Buffer, word: &str, number: u64) {
    out.put(word);
    out.number(number);
}

fn put_header(out: &mut Buffer, header: Header) {
    match format!(in out.alloc(); "\nheader {:?}", header.kind) {
        Ok(text) => out.put(&text),
        Err(_) => out.fail(),
    }
    put_counted(out, " ", u64::from(header.bytes));
    put_counted(out, " ", header.pid);
    put_counted(out, " ", u64::from(header.chain));
}

fn put_reference(out: &mut Buffer, reference: Reference) {
    match reference {
        Reference::Nil => out.put(" nil"),
        Reference::Local(at) => put_counted(out, " ", u64::from(at)),
        Reference::Pid(pid) => put_counted(out, " pid+", pid),
    }
}

/// Writes in a line which objects are noted as assigned, where there are any.
pub fn put_assigned(out: &mut Buffer, sw: &Swizzle) {
    if sw.assigned().is_empty() {
        return;
    }
    out.put("\nassigned");
    for object in sw.assigned() {
        put_counted(out, " ", u64::from(*object));
    }
}
