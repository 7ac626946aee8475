// Numbers as they are written on the command line.
ghost use Rattle.std.specs.Prelude.{◌≡◌, ℕ, ◌+◌, ◌^◌, ◌<◌, ◌⊎◌, MatchOption, ◌==◌, slice_index};
ghost use Rattle.spelling.specs.Texts.{Decimal, Signed};

// Whether a plus stands first, which `from_str_radix` would pass over.
fn has_plus(text: &str) -> bool
    ensures { result ≡ (slice_index text.now 0 == 43) }
{
    text.starts_with('+')
}

// The number that the text writes in digits alone, where 64 bits hold it.
fn number(text: &str) -> Option<u64>
    ensures { MatchOption result ((n : ℕ) → Decimal text.now n → n < 2 ^ 64 → ⊥) (λ n. Decimal text.now n) }
{
    if has_plus(text) {
        return None;
    }
    u64::from_str_radix(text, 10).ok()
}

// The number below the limit that the text writes in digits alone.
fn decimal(text: &str, limit: u64) -> Option<u64>
    ensures { MatchOption result ((n : ℕ) → Decimal text.now n → n < limit → ⊥) (λ n. Decimal text.now n × (n < limit)) }
{
    number(text).filter(|n| *n < limit)
}

// What adds up with the number to nought, modulo the modulus.
fn opposite(n: u64, modulus: u64) -> u64
    requires { n < modulus }
    ensures below { result < modulus }
    ensures cancels { (result + n ≡ 0) ⊎ (result + n ≡ modulus) }
{
    if n == 0 { 0 } else { modulus - n }
}

// The number below the modulus that the text spells: digits, with or without a minus in front.
pub fn signed(text: &str, modulus: u64) -> Option<u64>
    ensures { MatchOption result ((x : ℕ) → Signed modulus text.now x → ⊥) (λ x. Signed modulus text.now x) }
{
    match text.strip_prefix('-') {
        Some(digits) => Some(opposite(decimal(digits, modulus)?, modulus)),
        None => decimal(text, modulus),
    }
}
