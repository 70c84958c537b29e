ghost use Rattle.std.specs.Prelude.{◌≡◌, ◌≤◌, ◌+◌, ◌-◌, ◌*◌, true, min};
ghost use Rattle.std.specs.List.{AllPass};
ghost use Rattle.std.specs.Char.{is_ascii_digit};
ghost use Rattle.ps_scan.specs.Class.{decimal};

/// The largest value of an int.
pub const LARGEST_INT: u32 = 2147483647;

/// The number that decimal digits write, or 2147483648 where it is larger.
pub fn decimal_of(digits: &[u8]) -> u32
    requires { AllPass is_ascii_digit digits.now }
    ensures { result ≡ min (decimal digits.now) 2147483648 }
{
    let mut value = 0u32;
    for digit in digits {
        value = with_digit(value, *digit);
    }
    value
}

fn with_digit(value: u32, digit: u8) -> u32
    requires capped { value ≤ 2147483648 }
    requires digit { is_ascii_digit digit ≡ true }
    ensures { result ≡ min (10 * value + (digit - 48)) 2147483648 }
{
    let value = 10 * value as u64 + (digit - b'0') as u64;
    value.min(LARGEST_INT as u64 + 1) as u32
}
