//! Loops over one object.
use crate::object::{CLASS, INSTRUCTIONS, NAMES, NEXT, Object, Origin, STORE, VECTOR};
use anyhow::{Result, bail};
use machine_run::RunEnd;
use machine_run::load::{load, machine};
use machine_run::run::run;
use machine_run::vault_output::Output;
use ps_base::bytes::Bytes;
use ps_base::code_unit::{CodeUnit, Constant, Frame};
use ps_base::list::List;
use std::alloc::Global;
use stored_scopes::{enter, vault_of};
use unit_rows::{Lexicon, assemble, store_of};

// The words of the area.
const WORDS: u32 = 8_192;

// The PID of the scope.
const SCOPE: u64 = 1;

// The instructions of the loops, without other names.
const LEXICON: Lexicon<'static> = Lexicon {
    instructions: INSTRUCTIONS,
    names: b"",
};

/// What a loop of so many turns outputs: the number that its last turn read, or that of the turns.
pub fn told(alloc: Global, object: Object, origin: Origin, turns: u32) -> Result<Vec<u8>> {
    let unit = unit_of(alloc, object, origin, turns)?;
    let store = store_of(alloc, LEXICON, STORE)?;
    let mut vault = vault_of(alloc, &store.words)?;
    let mut output = Output::new(alloc)?;
    let mut machine = machine(alloc, WORDS)?;
    let Ok(()) = load(&mut machine, &vault, &unit, u64::MAX, Vec::new(alloc)) else {
        bail!("not loaded");
    };
    if let Origin::Stored = origin {
        let Ok(()) = enter(&mut machine, &mut vault, SCOPE) else {
            bail!("no scope");
        };
    }
    match run(&mut machine, &mut vault, &mut output) {
        Ok(RunEnd::Done) => {}
        _ => bail!("not done"),
    }
    Ok(Vec::from_slice(alloc, output.owed())?)
}

// The unit of a loop of so many turns.
fn unit_of(alloc: Global, object: Object, origin: Origin, turns: u32) -> Result<CodeUnit> {
    let mut text = Vec::from_slice(alloc, object.before(origin))?;
    text.extend_from_slice(b"; jump test\nclause:\n")?;
    text.extend_from_slice(object.clause())?;
    text.extend_from_slice(b"\nget.m 0; int 1; add 1; set.m 0\ntest:\nget.m 0; int ")?;
    let turns = format!(in alloc; "{}", turns)?;
    text.extend_from_slice(turns.as_bytes())?;
    text.extend_from_slice(b"; lt.m; again clause\nget.m 1; write.i 0 1; return 0")?;
    let code = assemble(alloc, LEXICON, &text)?;
    Ok(CodeUnit {
        code: Bytes::new(code),
        constants: List::new(constants_of(alloc)?),
        frame: frame(2, 1, 0),
    })
}

// The texts of the class, the vectors and the scopes, and the procedure.
fn constants_of(alloc: Global) -> Result<Vec<Constant>> {
    let mut constants = Vec::new(alloc);
    for text in [CLASS, VECTOR, NAMES] {
        let bytes = Vec::from_slice(alloc, text)?;
        constants.push(Constant::Text(Bytes::new(bytes)))?;
    }
    let next = CodeUnit {
        code: Bytes::new(assemble(alloc, LEXICON, NEXT)?),
        constants: List::new(Vec::new(alloc)),
        frame: frame(1, 0, 1),
    };
    constants.push(Constant::of_unit(alloc, next)?)?;
    Ok(constants)
}

// A frame of so many numbers and references, of which so many numbers are arguments.
fn frame(nums: u16, refs: u16, num_params: u16) -> Frame {
    Frame {
        nums,
        refs,
        num_params,
        ref_params: 0,
    }
}
