ghost use Rattle.std.specs.Prelude.{◌≡◌, map, drop, IsTrue};
ghost use Rattle.std.specs.List.{range_with_len};
ghost use Rattle.ps_cases.specs.Table.{codes, is_table};
ghost use Rattle.ps_code.specs.Codes.{operand_counts};

use ps_cases::row::Row;

/// The instructions, as `docs/formats.md` lists them: for each its code, its name, its variant and
/// its operands in their order. What writes the rows out is named first, and is handed the rest.
macro_rules! instructions {
    ($write:ident $($given:ident)*) => {
        $write! { ($($given)*)
            1 "int" Int { v: int }
            2 "true" True {}
            3 "false" False {}
            4 "text" Text { c: word }
            5 "nil" Nil {}
            6 "get.m" GetM { s: word }
            7 "get.p" GetP { s: word }
            8 "set.m" SetM { s: word }
            9 "set.p" SetP { s: word }
            10 "kept.m" KeptM { u: word, i: word }
            11 "kept.p" KeptP { u: word, i: word }
            12 "keep.m" KeepM { u: word, i: word }
            13 "keep.p" KeepP { u: word, i: word }
            14 "scope" Scope { c: word }
            15 "leave" Leave {}
            16 "jump" Jump { t: word }
            17 "jump.false" JumpFalse { t: word }
            18 "again" Again { t: word }
            19 "and" And { t: word }
            20 "or" Or { t: word }
            21 "not" Not {}
            22 "neg" Neg { line: line }
            23 "add" Add { line: line }
            24 "sub" Sub { line: line }
            25 "mul" Mul { line: line }
            26 "div" Div { line: line }
            27 "rem" Rem { line: line }
            28 "eq.m" EqM {}
            29 "ne.m" NeM {}
            30 "lt.m" LtM {}
            31 "le.m" LeM {}
            32 "gt.m" GtM {}
            33 "ge.m" GeM {}
            34 "eq.p" EqP {}
            35 "ne.p" NeP {}
            36 "eq.t" EqT {}
            37 "ne.t" NeT {}
            38 "lt.t" LtT {}
            39 "le.t" LeT {}
            40 "gt.t" GtT {}
            41 "ge.t" GeT {}
            42 "join" Join { line: line }
            43 "part" Part { line: line }
            44 "is" Is { c: word }
            45 "make" Make { c: word }
            46 "field.m" FieldM { c: word, i: word, line: line }
            47 "field.p" FieldP { c: word, i: word, line: line }
            48 "set.field.m" SetFieldM { c: word, i: word, line: line }
            49 "set.field.p" SetFieldP { c: word, i: word, line: line }
            50 "fill.m" FillM { c: word, line: line }
            51 "fill.p" FillP { c: word, line: line }
            52 "list.m" ListM { c: word, n: word, line: line }
            53 "list.p" ListP { c: word, n: word, line: line }
            54 "elem.m" ElemM { line: line }
            55 "elem.p" ElemP { line: line }
            56 "set.elem.m" SetElemM { line: line }
            57 "set.elem.p" SetElemP { line: line }
            58 "lwb" Lwb {}
            59 "upb" Upb {}
            60 "closure" Closure { c: word }
            61 "call" Call { n: word, line: line }
            62 "return" Return { k: word }
            63 "lib" Lib { k: word, line: line }
            64 "write.i" WriteI { w: word, line: line }
            65 "write.b" WriteB { w: word, line: line }
            66 "write.t" WriteT { w: word, line: line }
            67 "abort" Abort { line: line }
            68 "for.start" ForStart { s: word, t: word, line: line }
            69 "for.next" ForNext { s: word, t: word }
            70 "scan.t" ScanT { q: word, s: word, t: word, line: line }
            71 "scan.i" ScanI { q: word, s: word, t: word, line: line }
            72 "scan.more" ScanMore { s: word, t: word }
            73 "dup.m" DupM {}
            74 "dup.p" DupP {}
            75 "drop.m" DropM {}
            76 "drop.p" DropP {}
            77 "jump.true" JumpTrue { t: word }
        }
    };
}

macro_rules! one {
    ($field:ident) => {
        1
    };
}

macro_rules! each_row {
    (
        ()
        $($code:literal $name:literal $variant:ident { $($field:ident: $kind:ident),* })*
    ) => {
        [$(Row { code: $code, operands: 0 $(+ one!($field))*, name: $name }),*]
    };
}

pub(crate) use instructions;

/// A row for each instruction, in the order of the codes from 1 on.
pub const INSTRUCTIONS: [Row; 77] = instructions!(each_row);

/// The table of the instructions.
pub fn rows() -> &'static [Row; 77]
    ensures table { IsTrue (is_table result.now) }
    ensures codes { codes result.now ≡ range_with_len 1 77 }
    ensures operands { map (λ row. row.operands) result.now ≡ drop 1 operand_counts }
{
    &INSTRUCTIONS
}
