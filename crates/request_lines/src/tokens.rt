//! The tokens of a line.
ghost use Rattle.std.specs.Prelude.{◌≡◌, ◌<◌, ◌≤◌, ◌∷◌, [], length, position, IfSome, None};
ghost use Rattle.std.specs.List.{before_first};
ghost use Rattle.request_lines.specs.Tokens.{is_space, tokens};

/// The bytes before the first space.
pub fn first_token(bytes: &[u8]) -> &[u8]
    ensures token { result.now ≡ before_first is_space bytes.now }
    ensures within { length result.now ≤ length bytes.now }
{
    match first_space(bytes) {
        Some(end) => &bytes[..end],
        None => bytes,
    }
}

/// The first token, and what stands behind its space; none where there is no space.
pub fn cut(bytes: &[u8]) -> Option<(&[u8], &[u8])>
    ensures cut { IfSome result (λ parts. tokens bytes.now ≡ parts.0.now ∷ tokens parts.1.now) }
    ensures one { result ≡ None → tokens bytes.now ≡ bytes.now ∷ [] }
{
    match first_space(bytes) {
        Some(place) => Some((&bytes[..place], &bytes[place + 1..])),
        None => None,
    }
}

/// The place of the first space.
fn first_space(bytes: &[u8]) -> Option<usize>
    ensures place { result ≡ position is_space bytes.now }
    ensures within { IfSome result (λ place. place < length bytes.now) }
{
    bytes.iter().position(|byte| *byte == b' ')
}
