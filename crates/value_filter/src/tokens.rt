ghost use Rattle.std.specs.Prelude.{◌≡◌, IfSome, IfNone};
ghost use Rattle.value_filter.specs.declared.tokens.Token.{Token as TokenOf};
ghost use Rattle.value_filter.specs.Pieces.{keyword, Spells};

use crate::atoms::{Comparison, Subject};
use whole_number::integer;

/// A token of a filter's text.
#[derive(Clone, Copy)]
pub enum Token {
    Subject(Subject),
    Sign(Comparison),
    Number(i128),
    AndWord,
    OrWord,
    NotWord,
    Open,
    Close,
}

impl Token {
    /// The token that a piece spells, or `None` where it spells none.
    pub(crate) fn of(piece: &[u8]) -> Option<Token>
        ensures found { IfSome result (λ token. Spells piece.now token) }
        ensures none { IfNone result ((token : TokenOf) → Spells piece.now token → ⊥) }
    {
        if let Some(token) = keyword(piece) {
            return Some(token);
        }
        let number = integer(piece)?;
        Some(Token::Number(number))
    }
}

/// The token other than a number that a piece spells.
#[tactic(auto, unfolding(crate::specs::Pieces::keyword))]
fn keyword(piece: &[u8]) -> Option<Token>
    ensures { result ≡ keyword piece.now }
{
    if piece == b"t".as_slice() {
        Some(Token::Subject(Subject::Time))
    } else if piece == b"v".as_slice() {
        Some(Token::Subject(Subject::Value))
    } else if piece == b"<".as_slice() {
        Some(Token::Sign(Comparison::Less))
    } else if piece == b"<=".as_slice() {
        Some(Token::Sign(Comparison::LessOrEqual))
    } else if piece == b"=".as_slice() {
        Some(Token::Sign(Comparison::Equal))
    } else if piece == b"!=".as_slice() {
        Some(Token::Sign(Comparison::NotEqual))
    } else if piece == b">=".as_slice() {
        Some(Token::Sign(Comparison::GreaterOrEqual))
    } else if piece == b">".as_slice() {
        Some(Token::Sign(Comparison::Greater))
    } else if piece == b"and".as_slice() {
        Some(Token::AndWord)
    } else if piece == b"or".as_slice() {
        Some(Token::OrWord)
    } else if piece == b"not".as_slice() {
        Some(Token::NotWord)
    } else if piece == b"(".as_slice() {
        Some(Token::Open)
    } else if piece == b")".as_slice() {
        Some(Token::Close)
    } else {
        None
    }
}
