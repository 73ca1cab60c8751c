ghost use Rattle.std.specs.Prelude.{◌≡◌, ◌<◌, ◌≤◌, not, length, IsTrue, IfSome, position, slice_index};
ghost use Rattle.std.specs.List.{before_first};
ghost use Rattle.value_filter.specs.Pieces.{is_space, is_word_byte, begins_long_sign, past_spaces, first_piece};

/// A text without the spaces that it begins with.
pub(crate) fn past_spaces(text: &[u8]) -> &[u8]
    ensures rest { result.now ≡ past_spaces text.now }
    ensures within { length result.now ≤ length text.now }
{
    match first_other(text) {
        Some(start) => &text[start..],
        None => &text[text.len()..],
    }
}

/// The place of the first byte that is no space.
fn first_other(text: &[u8]) -> Option<usize>
    ensures place { result ≡ position (λ byte. not (is_space byte)) text.now }
    ensures within { IfSome result (λ place. place < length text.now) }
{
    text.iter().position(|byte| *byte != b' ')
}

/// The piece that a text begins with: the longest run of letters, digits and hyphens, or the longest
/// sign that stands there, or else one byte.
#[tactic(auto, unfolding(crate::specs::Pieces::first_piece))]
pub(crate) fn first_piece(text: &[u8]) -> &[u8]
    requires { 0 < length text.now }
    ensures piece { result.now ≡ first_piece text.now }
    ensures some { 0 < length result.now }
    ensures within { length result.now ≤ length text.now }
{
    if is_word_byte(text[0]) {
        return word(text);
    }
    if begins_long_sign(text) {
        return &text[..2];
    }
    &text[..1]
}

/// The longest run of word bytes at the front.
fn word(text: &[u8]) -> &[u8]
    ensures word { result.now ≡ before_first (λ byte. not (is_word_byte byte)) text.now }
    ensures some { IsTrue (is_word_byte (slice_index text.now 0)) → 0 < length text.now → 0 < length result.now }
    ensures within { length result.now ≤ length text.now }
{
    match word_end(text) {
        Some(end) => &text[..end],
        None => text,
    }
}

/// The place of the first byte that belongs to no word or number.
fn word_end(text: &[u8]) -> Option<usize>
    ensures place { result ≡ position (λ byte. not (is_word_byte byte)) text.now }
    ensures within { IfSome result (λ place. place < length text.now) }
{
    text.iter().position(|byte| !is_word_byte(*byte))
}

/// Whether the byte belongs to words and numbers.
fn is_word_byte(byte: u8) -> bool
    ensures { result ≡ is_word_byte byte }
{
    byte.is_ascii_uppercase() || byte.is_ascii_lowercase() || byte.is_ascii_digit() || byte == b'-'
}

/// Whether a text begins with `<=`, `>=` or `!=`.
fn begins_long_sign(text: &[u8]) -> bool
    ensures found { result ≡ begins_long_sign text.now }
    ensures long { IsTrue result → 1 < length text.now }
{
    text.len() > 1 && text[1] == b'=' && (text[0] == b'<' || text[0] == b'>' || text[0] == b'!')
}
