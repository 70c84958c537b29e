//! How many words the objects of a unit have.
ghost use Rattle.std.specs.Prelude.{◌≡◌, ◌+◌, ◌<◌, ◌^◌};
ghost use Rattle.heap_texts.specs.obj_area.Area.{words_spanned as spanned};
ghost use Rattle.ps_base.specs.CodeUnit.{constant_view, constants_view, unit_view};
ghost use Rattle.heap_texts.specs.Texts.{text_nums};
ghost use Rattle.proc_values.specs.Units.{code_nums as code_nums_of, unit_words, constants_words, constant_words};

use ps_base::code_unit::{CodeUnit, Constant};

// The words of a unit's objects.
#[cycle(counting)]
fn words_of_unit(unit: &CodeUnit) -> u64
    requires { unit_words (unit_view unit.now) < 2 ^ 32 }
    ensures { result ≡ unit_words (unit_view unit.now) }
{
    let constants = unit.constants.as_slice();
    words_of_constants(constants) + code_words(constants.len(), unit.code.len())
}

/// The words of these constants' objects.
#[cycle(counting)]
pub fn words_of_constants(constants: &[Constant]) -> u64
    requires { constants_words (constants_view constants.now) < 2 ^ 32 }
    ensures { result ≡ constants_words (constants_view constants.now) }
{
    let mut words = 0;
    for constant in constants {
        words += words_of_constant(constant);
    }
    words
}

/// The words of a constant's objects.
#[cycle(counting)]
pub fn words_of_constant(constant: &Constant) -> u64
    requires { constant_words (constant_view constant.now) < 2 ^ 32 }
    ensures { result ≡ constant_words (constant_view constant.now) }
{
    match constant {
        Constant::Text(bytes) => text_words(bytes.len()),
        Constant::Unit(unit) => words_of_unit(unit),
    }
}

// The words of a code object with so many constants and bytes.
fn code_words(constants: usize, bytes: usize) -> u64
    requires { constants < 2 ^ 63 }
    ensures { result ≡ 4 + constants + code_nums_of bytes }
{
    4 + constants as u64 + code_nums(bytes)
}

/// The number words of code of so many bytes.
pub fn code_nums(bytes: usize) -> u64
    ensures { result ≡ code_nums_of bytes }
{
    2 + words_spanned(bytes)
}

// The words of a text of so many bytes.
fn text_words(bytes: usize) -> u64
    ensures { result ≡ 4 + text_nums bytes }
{
    5 + words_spanned(bytes)
}

// How many words so many bytes lie in.
fn words_spanned(bytes: usize) -> u64
    ensures { result ≡ spanned bytes }
{
    (bytes as u64).div_ceil(8)
}
