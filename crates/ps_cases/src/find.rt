ghost use Rattle.std.specs.Prelude.{◌≡◌, ℕ, ◌==◌, IsTrue, IfSome, Some, slice_get};
ghost use Rattle.std.specs.List.{position};
ghost use Rattle.std.specs.Str.{bytes_eq};
ghost use Rattle.ps_cases.specs.Table.{codes, names, is_table};

use crate::row::Row;

/// The index of the one row of the table with this code, and `None` where no row has it.
pub fn find_code(table: &[Row], code: u8) -> Option<usize>
    requires { IsTrue (is_table table.now) }
    ensures found { IfSome result (λ k. slice_get (codes table.now) k ≡ Some code) }
    ensures only { (k : ℕ) → slice_get (codes table.now) k ≡ Some code → result ≡ Some k }
{
    first_with_code(table, code)
}

/// The index of the one row of the table with this name, and `None` where no row has it.
pub fn find_name(table: &[Row], name: &[u8]) -> Option<usize>
    requires { IsTrue (is_table table.now) }
    ensures found { IfSome result (λ k. slice_get (names table.now) k ≡ Some name.now) }
    ensures only { (k : ℕ) → slice_get (names table.now) k ≡ Some name.now → result ≡ Some k }
{
    first_with_name(table, name)
}

fn first_with_code(table: &[Row], code: u8) -> Option<usize>
    ensures { result ≡ position (λ row. row.code == code) table.now }
{
    table.iter().position(|row| row.code == code)
}

fn first_with_name(table: &[Row], name: &[u8]) -> Option<usize>
    ensures { result ≡ position (λ row. bytes_eq row.name.now name.now) table.now }
{
    table.iter().position(|row| row.name.as_bytes() == name)
}
