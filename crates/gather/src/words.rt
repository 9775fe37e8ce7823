ghost use Rattle.std.specs.Prelude.{◌≡◌, ℕ, ◌+◌, ◌-◌, ◌*◌, ◌%◌, ◌<◌, ◌≤◌, max};
ghost use Rattle.gather.specs.Bits.{bit_of, sum_to};
ghost use Rattle.gather.specs.Gathered.{Stepped};

/// Each bit, and the bit `k` places below it, added without a carry.
#[tactic(auto, using(crate::proofs::Bitwise::fold_low, crate::proofs::Bitwise::fold_high))]
fn fold(x: u64, k: u32) -> u64
    requires { k < 64 }
    ensures low { (p : ℕ) → p < k → bit_of result p ≡ bit_of x p }
    ensures high { (p : ℕ) → k ≤ p → p < 64 → bit_of result p ≡ (bit_of x p + bit_of x (p - k)) % 2 }
{
    x ^ (x << k)
}

/// At each place whether the number of bits set there and below is odd.
pub(crate) fn parity(x: u64) -> u64
    ensures { (p : ℕ) → p < 64 → bit_of result p ≡ sum_to (bit_of x) (p + 1) % 2 }
{
    let mut odd = x;
    for i in 0..6u32 {
        odd = fold(odd, 1 << i);
    }
    odd
}

/// Moves the bits of `y` at which `m` is set `k` places down.
#[tactic(auto, using(crate::proofs::Bitwise::step_bit))]
pub(crate) fn step(y: u64, m: u64, k: u32) -> u64
    requires { k < 64 }
    ensures { Stepped y m k result }
{
    let moving = y & m;
    (y ^ moving) | (moving >> k)
}

/// The bits that are not set, one place up.
pub(crate) fn unset(s: u64) -> u64
    ensures first { bit_of result 0 ≡ 0 }
    ensures others { (p : ℕ) → p < 63 → bit_of result (p + 1) ≡ 1 - bit_of s p }
{
    others(s) << 1
}

/// The bits of `x` that `m` has too.
#[tactic(auto, using(crate::proofs::Bitwise::shared_bit))]
pub(crate) fn shared(x: u64, m: u64) -> u64
    ensures { (j : ℕ) → bit_of result j ≡ bit_of x j * bit_of m j }
{
    x & m
}

/// The bits of `x` that `m` lacks.
#[tactic(auto, using(crate::proofs::Bitwise::lacks_bit))]
pub(crate) fn lacks(x: u64, m: u64) -> u64
    ensures { (j : ℕ) → bit_of result j ≡ bit_of x j * (1 - bit_of m j) }
{
    x ^ (x & m)
}

/// The word that has the other bits set.
#[tactic(auto, using(crate::proofs::Bitwise::bit_not))]
pub(crate) fn others(word: u64) -> u64
    ensures { (p : ℕ) → p < 64 → bit_of result p ≡ 1 - bit_of word p }
{
    !word
}

/// How many bits of a word are set.
#[tactic(auto, using(crate::proofs::Counts::ones_word))]
pub fn set_bits(word: u64) -> usize
    ensures value { result ≡ sum_to (bit_of word) 64 }
    ensures bound { result ≤ 64 }
{
    // As it is: no `From` leads from a `u32` to a `usize`, in Rust neither.
    word.count_ones() as usize
}
