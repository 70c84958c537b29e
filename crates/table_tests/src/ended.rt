use memory_vault::obj_layout::vault::VaultFault;
use row_words::put_number;
use row_words::table_rows::Buffer;
use table_lib::table_nodes::heap_places::heap_texts::fault::OpFault;
use table_lib::table_nodes::heap_places::swizzle::fault::SwizzleFault;

/// Writes what a call ended in that gave nothing.
pub fn put_fault(out: &mut Buffer, fault: OpFault) {
    match fault {
        OpFault::Trap(trap) => {
            out.put("trapped ");
            out.number(trap as u64);
        }
        OpFault::Swizzle(refused) => put_refusal(out, refused),
    }
}

/// Writes what was refused.
pub fn put_refusal(out: &mut Buffer, fault: SwizzleFault) {
    match fault {
        SwizzleFault::AreaFull { top, wanted, size } => {
            put_numbers(
                out,
                "full",
                [u64::from(top), u64::from(wanted), u64::from(size)],
            );
        }
        SwizzleFault::Vault(VaultFault::Damaged { at, found, wanted }) => {
            put_damage(out, [at, found, wanted]);
        }
        SwizzleFault::Vault(refused) => put_other(out, refused),
    }
}

fn put_numbers(out: &mut Buffer, word: &str, numbers: [u64; 3]) {
    out.put(word);
    for number in numbers {
        out.put(" ");
        out.number(number);
    }
}

fn put_damage(out: &mut Buffer, numbers: [u64; 3]) {
    out.put("damaged");
    for number in numbers {
        out.put(" ");
        put_number(out, number);
    }
}

fn put_other(out: &mut Buffer, refused: VaultFault) {
    match format!(in out.alloc(); "refused {refused:?}") {
        Ok(text) => out.put(&text),
        Err(_) => out.fail(),
    }
}
