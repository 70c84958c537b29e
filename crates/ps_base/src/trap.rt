/// Why a program ended before its last clause, as `docs/language.md` lists the traps.
#[derive(Clone, Copy)]
pub enum Trap {
    Overflow = 1,
    ZeroDivisor = 2,
    Bounds = 3,
    Nil = 4,
    WrongClass = 5,
    Substring = 6,
    TooDeep = 7,
    Abort = 8,
    KeyKind = 9,
    TooLong = 10,
    NoInput = 11,
}
