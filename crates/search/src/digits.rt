// Binary digits.
ghost use Rattle.std.specs.Prelude.{◌≡◌};
ghost use Rattle.search.specs.Digits.{HasDigits, digits};

/// The place of the highest digit that is set, counted from 0, and one more; 0 has no digits.
#[tactic(auto, using(crate::proofs::Widths::no_digits, crate::proofs::Widths::digits_above))]
fn digit_count(n: u64) -> u32
    ensures { result ≡ digits n }
{
    if n == 0 { 0 } else { n.ilog2() + 1 }
}

/// How many binary digits a number has, counted without leading zeros.
pub fn binary_digits(n: u64) -> u32
    ensures exact { result ≡ digits n }
    ensures law { HasDigits n result }
{
    digit_count(n)
}
