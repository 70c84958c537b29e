//! What was found, told as a text.
ghost use Rattle.heap_ops.specs.swizzle.Heap.{IsHeld};

use crate::value::TEXT_AT;
use heap_ops::heap_places::value::Value;
use heap_ops::heap_texts::fault::OpFault;
use heap_ops::swizzle::fault::SwizzleFault;
use heap_ops::swizzle::swizzle::Swizzle;
use memory_vault::obj_layout::header::Header;
use memory_vault::obj_layout::kind::Kind;
use memory_vault::obj_layout::reference::Reference;
use memory_vault::obj_layout::vault::VaultFault;
use row_words::table_rows::Buffer;

/// Writes a vector as it lies: its references and its number words, and before them its header where it isn't that of a new vector.
pub fn put_vector(out: &mut Buffer, sw: &Swizzle, vector: u32)
    requires { IsHeld sw.now vector }
{
    put_header(out, sw.header(vector));
    out.put("refs");
    for slot in 0..sw.refs(vector) {
        put_reference(out, sw.peek(vector, slot));
    }
    out.put("\nnums");
    for index in 0..sw.nums(vector) {
        put_hex(out, " ", sw.num(vector, index));
    }
}

fn put_header(out: &mut Buffer, header: Header) {
    if header.kind == Kind::Vector && (header.bytes, header.pid, header.chain) == (0, 0, 0) {
        return;
    }
    match format!(in out.alloc(); "{header:?}\n") {
        Ok(text) => out.put(&text),
        Err(_) => out.fail(),
    }
}

// A word, and a number in hex after it.
fn put_hex(out: &mut Buffer, word: &str, number: u64) {
    out.put(word);
    out.hex(number);
}

fn put_reference(out: &mut Buffer, reference: Reference) {
    match reference {
        Reference::Nil => out.put(" nil"),
        Reference::Local(TEXT_AT) => out.put(" text"),
        Reference::Local(at) => put_hex(out, " object ", u64::from(at)),
        Reference::Pid(pid) => put_hex(out, " pid ", pid),
    }
}

/// Writes the value of an element.
pub fn put_value(out: &mut Buffer, value: Value) {
    out.put("value ");
    match value {
        Value::Num(int) => out.int(int),
        Value::Flag(true) => out.put("true"),
        Value::Flag(false) => out.put("false"),
        Value::Ref(None) => out.put("nil"),
        Value::Ref(Some(TEXT_AT)) => out.put("text"),
        Value::Ref(Some(at)) => put_hex(out, "object ", u64::from(at)),
    }
}

/// Writes what a call ended in that gave nothing.
pub fn put_fault(out: &mut Buffer, fault: OpFault) {
    match fault {
        OpFault::Trap(trap) => {
            out.put("trapped ");
            out.number(trap as u64);
        }
        OpFault::Swizzle(SwizzleFault::AreaFull { top, wanted, size }) => {
            put_three(
                out,
                "full",
                [u64::from(top), u64::from(wanted), u64::from(size)],
            );
        }
        OpFault::Swizzle(SwizzleFault::Vault(VaultFault::Damaged { at, found, wanted })) => {
            put_three(out, "damaged", [at, found, wanted]);
        }
        OpFault::Swizzle(SwizzleFault::Vault(refused)) => put_refusal(out, refused),
    }
}

fn put_three(out: &mut Buffer, word: &str, numbers: [u64; 3]) {
    out.put(word);
    for number in numbers {
        put_hex(out, " ", number);
    }
}

fn put_refusal(out: &mut Buffer, refused: VaultFault) {
    match format!(in out.alloc(); "refused {refused:?}") {
        Ok(text) => out.put(&text),
        Err(_) => out.fail(),
    }
}

/// Writes after the rest which objects are noted as assigned, where there are any.
pub fn put_assigned(out: &mut Buffer, assigned: &[u32], vector: u32) {
    if assigned.is_empty() {
        return;
    }
    out.put("\nassigned");
    for object in assigned {
        if *object == vector {
            out.put(" vector");
        } else {
            put_hex(out, " ", u64::from(*object));
        }
    }
}
