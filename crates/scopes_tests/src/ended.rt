use memory_vault::obj_layout::vault::VaultFault;
use row_words::put_number;
use row_words::table_rows::Buffer;
use scopes::swizzle::fault::SwizzleFault;

/// What a call ended in that gave nothing: a refusal. It is none where no call was made: it is no PID, or the value denotes an object.
pub type Ended = Option<SwizzleFault>;

/// Writes what a call ended in.
pub fn put_ended(out: &mut Buffer, ended: Ended) {
    match ended {
        Some(SwizzleFault::AreaFull { top, wanted, size }) => {
            put_numbers(
                out,
                "full",
                [u64::from(top), u64::from(wanted), u64::from(size)],
            );
        }
        Some(SwizzleFault::Vault(VaultFault::Damaged { at, found, wanted })) => {
            put_damage(out, [at, found, wanted]);
        }
        Some(SwizzleFault::Vault(refused)) => put_refusal(out, refused),
        None => out.put("not called"),
    }
}

fn put_numbers(out: &mut Buffer, word: &str, numbers: [u64; 3]) {
    out.put(word);
    for number in numbers {
        out.put(" ");
        out.number(number);
    }
}

fn put_damage(out: &mut Buffer, numbers: [u64; 3]) {
    out.put("damaged");
    for number in numbers {
        out.put(" ");
        put_number(out, number);
    }
}

fn put_refusal(out: &mut Buffer, refused: VaultFault) {
    match format!(in out.alloc(); "refused {refused:?}") {
        Ok(text) => out.put(&text),
        Err(_) => out.fail(),
    }
}
