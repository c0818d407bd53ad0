//! Escapes in quoted texts, and where a text ends.
ghost use Rattle.std.specs.Prelude.{◌≡◌, ◌+◌, ◌<◌, true, IfSome, IfOk, IfErr};
ghost use Rattle.expr_tokens.specs.Quoted.{is_quote, letters, letter_in, hex_digit, coded, coded_at, escape_at};
ghost use Rattle.expr_tokens.specs.Working.Scanning.{seen, ClosesAt, FailsAt};

pub(crate) fn is_quote(byte: u8) -> bool
    ensures { result ≡ is_quote byte }
{
    byte == b'\'' || byte == b'"'
}

// The character that an escape means, and what follows it. The bytes are those behind its backslash.
pub(crate) fn escape(bytes: &[u8]) -> Option<(char, &[u8])>
    ensures { seen result ≡ escape_at bytes.now }
{
    match bytes {
        [b'u', rest @ ..] => escaped_code(rest),
        [letter, rest @ ..] => Some((escaped_letter(*letter)?, rest)),
        [] => None,
    }
}

fn escaped_letter(letter: u8) -> Option<char>
    ensures { result ≡ letter_in letters letter }
{
    match letter {
        b'\\' => Some('\\'),
        b'\'' => Some('\''),
        b'"' => Some('"'),
        b'/' => Some('/'),
        b'b' => Some('\u{8}'),
        b'f' => Some('\u{c}'),
        b'n' => Some('\n'),
        b'r' => Some('\r'),
        b't' => Some('\t'),
        _ => None,
    }
}

// The character that four hexadecimal digits say at the front, and what follows them.
fn escaped_code(bytes: &[u8]) -> Option<(char, &[u8])>
    ensures { seen result ≡ coded_at bytes.now }
{
    match bytes {
        [a, b, c, d, rest @ ..] => Some((coded(*a, *b, *c, *d)?, rest)),
        _ => None,
    }
}

// The character that four hexadecimal digits say; a surrogate says none.
fn coded(a: u8, b: u8, c: u8, d: u8) -> Option<char>
    ensures { result ≡ coded a b c d }
{
    let (a, b, c, d) = (hex(a)?, hex(b)?, hex(c)?, hex(d)?);
    char::from_u32(4096 * a + 256 * b + 16 * c + d)
}

fn hex(digit: u8) -> Option<u32>
    ensures value { result ≡ hex_digit digit }
    ensures small { IfSome result (λ d. d < 16) }
{
    (digit as char).to_digit(16)
}

// How many bytes of a text stand before its closing quote, or before its first fault. The bytes are
// those behind its opening quote.
pub(crate) fn closing(quote: u8, bytes: &[u8]) -> Result<usize, usize>
    requires { is_quote quote ≡ true }
    ensures closes { IfOk result (λ on. ClosesAt quote bytes.now on) }
    ensures fails { IfErr result (λ on. FailsAt quote bytes.now on) }
{
    let mut rest = bytes;
    while let [first, behind @ ..] = rest
        && *first != quote
    {
        rest = if *first == b'\\' {
            let Some((_, after)) = escape(behind) else {
                return Err(bytes.len() - rest.len());
            };
            after
        } else {
            behind
        };
    }
    let on = bytes.len() - rest.len();
    if rest.is_empty() { Err(on) } else { Ok(on) }
}
