//! The numbers of keys.
ghost use Rattle.std.specs.Prelude.{◌≡◌, ◌≤◌, pos, IfSome};
ghost use Rattle.listeners.specs.Order.{is_digit, negated, if_small, number_of};
ghost use Rattle.listeners.specs.Working.Numbers.{near_of};

// The greatest number that one of 32 bits may have behind a minus.
const GREATEST: u64 = 2_147_483_648;

// The number of 32 bits that a key is, if it is one: digits, perhaps after a minus. It ends at the first
// byte that is no digit, and where the number grows too great.
pub(crate) fn number_of(key: &str) -> Option<i32>
    ensures { result ≡ number_of key.now }
{
    match key.as_bytes() {
        [b'-', digits @ ..] => negative(near_of(digits)?),
        digits => positive(near_of(digits)?),
    }
}

// The number that digits write, up to 2^31.
#[tactic(auto, using(crate::proofs::Numbers::read_great))]
fn near_of(digits: &[u8]) -> Option<u64>
    ensures number { result ≡ near_of digits.now }
    ensures within { IfSome result (λ number. number ≤ GREATEST) }
{
    if digits.is_empty() {
        return None;
    }
    let mut number = 0;
    for digit in digits {
        if !is_digit(*digit) {
            return None;
        }
        number = number * 10 + u64::from(*digit - b'0');
        if number > GREATEST {
            return None;
        }
    }
    Some(number)
}

fn is_digit(byte: u8) -> bool
    ensures { result ≡ is_digit byte }
{
    byte.is_ascii_digit()
}

fn positive(number: u64) -> Option<i32>
    ensures { result ≡ if_small (pos number) }
{
    if number < GREATEST {
        Some(number as i32)
    } else {
        None
    }
}

fn negative(number: u64) -> Option<i32>
    requires { number ≤ GREATEST }
    ensures { result ≡ if_small (negated number) }
{
    Some(-(number as i64) as i32)
}
