//! What calls answered, written to a buffer.
use db_dir::fault::DirFault;
use db_dir::joint_ops::obj_layout::vault::VaultFault;
use db_dir::joint_ops::swizzle::fault::SwizzleFault;
use row_words::put_number;
use row_words::table_rows::Buffer;

/// Writes a word, and a number after it.
pub fn put_counted(out: &mut Buffer, word: &str, number: u64) {
    out.put(word);
    out.put(" ");
    out.number(number);
}

/// Writes why an error record is answered.
pub fn put_fault(out: &mut Buffer, fault: DirFault) {
    match format!(in out.alloc(); "fault {fault:?}") {
        Ok(text) => out.put(&text),
        Err(_) => out.fail(),
    }
}

/// Writes the number of a database that was opened, the PID of its root, and how it is open.
pub fn put_root(out: &mut Buffer, number: u32, pid: u64, writing: bool) {
    put_counted(out, "root", u64::from(number));
    out.put(" ");
    out.number(pid);
    out.put(if writing { " write" } else { " read" });
}

/// Writes what was refused.
pub fn put_refusal(out: &mut Buffer, fault: SwizzleFault) {
    match fault {
        SwizzleFault::AreaFull { top, wanted, size } => {
            out.put("full");
            for number in [top, wanted, size] {
                out.put(" ");
                out.number(u64::from(number));
            }
        }
        SwizzleFault::Vault(VaultFault::Damaged { at, found, wanted }) => {
            out.put("damaged");
            for number in [at, found, wanted] {
                out.put(" ");
                put_number(out, number);
            }
        }
        SwizzleFault::Vault(refused) => put_other(out, refused),
    }
}

fn put_other(out: &mut Buffer, refused: VaultFault) {
    match format!(in out.alloc(); "refused {refused:?}") {
        Ok(text) => out.put(&text),
        Err(_) => out.fail(),
    }
}
