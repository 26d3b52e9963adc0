// Text: the parts around a byte, and decimal numbers.
ghost use Rattle.std.specs.Prelude.{◌≡◌, ◌==◌};
ghost use Rattle.std.specs.List.{position};
ghost use Rattle.thresholds.specs.Texts.{head_of, rest_of, with_digit, number_of};

fn find(s: &[u8], byte: u8) -> Option<usize>
    ensures { result ≡ position (λ x. x == byte) s.now }
{
    s.iter().position(|b| *b == byte)
}

// What stands before the first such byte, and what stands behind it: all of the text and nothing where there is none.
pub fn cut(s: &[u8], byte: u8) -> (&[u8], &[u8])
    ensures head { result.0.now ≡ head_of byte s.now }
    ensures rest { result.1.now ≡ rest_of byte s.now }
{
    match find(s, byte) {
        Some(n) => (&s[..n], &s[n + 1..]),
        None => (s, &s[s.len()..]),
    }
}

// The number with one more digit behind it. There is none where the byte is no digit, or where 64 bits do not hold it.
#[tactic(auto, unfolding(crate::specs::Texts::with_digit, crate::specs::Texts::is_digit))]
fn with_digit(n: u64, byte: u8) -> Option<u64>
    ensures { result ≡ with_digit n byte }
{
    if !byte.is_ascii_digit() {
        return None;
    }
    n.checked_mul(10)?.checked_add(u64::from(byte - b'0'))
}

// The number that a text of decimal digits alone says. It reads digits, and converts no enum.
#[tactic(auto, unfolding(crate::specs::Texts::number_of))]
pub fn number(s: &[u8]) -> Option<u64>
    ensures { result ≡ number_of s.now }
{
    if s.is_empty() {
        return None;
    }
    let mut n = 0;
    for byte in s {
        n = with_digit(n, *byte)?;
    }
    Some(n)
}
