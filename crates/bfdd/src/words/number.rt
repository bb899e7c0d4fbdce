//! Numbers.
ghost use Rattle.std.specs.Prelude.{◌≡◌, ◌≤◌, IfSome};
ghost use Rattle.std.specs.List.{list_all};
ghost use Rattle.std.specs.Char.{is_ascii_digit};
ghost use Rattle.bfdd.specs.Numbers.{is_number, number_in};

/// Whether each byte is a decimal digit.
fn is_all_digits(word: &[u8]) -> bool
    ensures { result ≡ list_all is_ascii_digit word.now }
{
    word.iter().all(|byte| byte.is_ascii_digit())
}

/// Whether a word is decimal digits without sign or leading zero.
fn is_decimal(word: &[u8]) -> bool
    ensures { result ≡ is_number word.now }
{
    is_all_digits(word) && !word.is_empty() && !(word.len() > 1 && word[0] == b'0')
}

/// The number that a word writes, where it is one from `least` to `most`.
#[tactic(auto, using(crate::proofs::Decimal::too_large))]
pub(crate) fn number(word: &str, least: u32, most: u32) -> Option<u32>
    ensures value { result ≡ number_in least most word.now }
    ensures range { IfSome result (λ n. (least ≤ n) × (n ≤ most)) }
{
    if !is_decimal(word.as_bytes()) {
        return None;
    }
    match word.parse::<u32>() {
        Ok(n) => {
            if n < least || most < n {
                return None;
            }
            Some(n)
        }
        Err(_) => None,
    }
}
