ghost use Rattle.std.specs.Prelude.{◌≡◌, ◌+◌, ◌^◌, ◌<◌, ◌≤◌, ◌++◌, length, map, IfOk, IfErr, ◌↔◌, ◌||◌, [], ◌∷◌, drop, IsTrue, IsSome};
ghost use Rattle.std.specs.Prelude.{IfSome, OnOk, All, None, false, unsigned_abs, codes};
ghost use Rattle.std.specs.Str.{bytes_eq};
ghost use Rattle.series_book.specs.Names.{is_name};
ghost use Rattle.series_book.specs.declared.limits.TheConstants.{GREATEST_START, GREATEST_STEP, GREATEST_SCALE};
ghost use Rattle.request_lines.specs.declared.places.Place.TheVariants.{Name as NamePlace, Start, Step, Scale, Integer, Value, Natural};
ghost use Rattle.request_lines.specs.declared.places.Place.TheVariants.{Session, Range, Where};
ghost use Rattle.whole_number.specs.Numbers.{is_integer, natural_value, integer_value};
ghost use Rattle.request_lines.specs.Ranges.{range_of};
ghost use Rattle.request_lines.specs.Tokens.{tokens_left, next_token, past_token};
ghost use Rattle.request_lines.specs.Grammar.{fault, Takes, Misses, MissesEnd, nothing, one_or_more, any_behind, value_place};
ghost use Rattle.request_lines.specs.Requests.{value_of, filter_of};

use crate::filter_texts::FilterText;
use crate::line_errors::LineError;
use crate::places::Place;
use crate::ranges::{RangeWord, range_of};
use crate::tokens::first_token;
use series_book::{Name, Values};
use std::alloc::Global;
use std::marker::Model;
use whole_number::numbers::{integer_value, natural_value};

/// Takes the tokens of a line one by one. It is seen as the line and the offset of the next token.
#[derive(Drop)]
pub(crate) struct Reader<'a> {
    line: &'a [u8],
    at: usize,
}

impl<'a> Model for Reader<'a> {
    ghost use Rattle.std.specs.Prelude.{◌+◌, ◌≤◌, length};
    ghost use Rattle.request_lines.specs.Tokens.{Cursor};

    ghost Value = { Cursor };

    ghost view = { λ reader. record { line = reader.line.now; at = reader.at } };

    ghost invariant = { λ reader. (length reader.line.now ≤ 8192) × (reader.at ≤ length reader.line.now + 1) };
}

impl<'a> Reader<'a> {
    /// Reads a line from its first token on.
    pub(crate) fn new(line: &'a [u8]) -> Reader<'a>
        requires { length line.now ≤ 8192 }
        ensures { result ≡ record { line = line.now; at = 0 } }
    {
        Reader { line, at: 0 }
    }

    /// Takes the next token, whatever it is.
    pub(crate) fn word(&mut self) -> &'a [u8]
        requires { self.old.at ≤ length self.old.line }
        ensures word { result.now ≡ next_token self.old }
        ensures past { self.new ≡ past_token self.old }
    {
        let word = self.next_token();
        self.at += word.len() + 1;
        word
    }

    /// The next token.
    fn next_token(&self) -> &'a [u8]
        requires { self.now.at ≤ length self.now.line }
        ensures token { result.now ≡ next_token self.now }
        ensures within { self.now.at + length result.now ≤ length self.now.line }
    {
        first_token(&self.line[self.at..])
    }

    /// Takes the next token, which the place must allow.
    pub(crate) fn token(&mut self, place: Place) -> Result<&'a [u8], LineError>
        ensures ok { IfOk result (λ token. Takes place self.old self.new × (token.now ≡ next_token self.old)) }
        ensures err { IfErr result (Misses place self.old) }
    {
        if self.at > self.line.len() {
            return Err(LineError::BadLine {
                at: self.line.len() as u32,
            });
        }
        let token = self.next_token();
        if !place.allows(token) {
            return Err(LineError::BadLine { at: self.at as u32 });
        }
        self.at += token.len() + 1;
        Ok(token)
    }

    /// Whether a token is left.
    pub(crate) fn has_token(&self) -> bool
        ensures { IsTrue result ↔ (self.now.at ≤ length self.now.line) }
    {
        self.at <= self.line.len()
    }

    /// Takes a name.
    pub(crate) fn name(&mut self, alloc: Global) -> Result<Name, LineError>
        ensures ok { IfOk result (λ name. Takes NamePlace self.old self.new × (name ≡ next_token self.old) × IsTrue (is_name name)) }
        ensures err { IfErr result (Misses NamePlace self.old) }
    {
        let token = self.token(Place::Name)?;
        Name::new(alloc, token).map_err(|_| LineError::NoMemory)
    }

    /// Takes an integer of a start.
    #[tactic(auto, unfolding(crate::specs::Grammar::allows))]
    pub(crate) fn start(&mut self) -> Result<i64, LineError>
        ensures ok { IfOk result (λ start. Takes Start self.old self.new × (start ≡ integer_value (next_token self.old))
            × (unsigned_abs start ≤ GREATEST_START)) }
        ensures err { IfErr result (Misses Start self.old) }
    {
        let token = self.token(Place::Start)?;
        Ok(integer_value(token) as i64)
    }

    /// Takes a natural number of a step.
    #[tactic(auto, unfolding(crate::specs::Grammar::allows))]
    pub(crate) fn step(&mut self) -> Result<u32, LineError>
        ensures ok { IfOk result (λ step. Takes Step self.old self.new × (step ≡ natural_value (next_token self.old)) × (1 ≤ step)
            × (step ≤ GREATEST_STEP)) }
        ensures err { IfErr result (Misses Step self.old) }
    {
        let token = self.token(Place::Step)?;
        Ok(natural_value(token) as u32)
    }

    /// Takes the digit of a scale.
    #[tactic(auto, unfolding(crate::specs::Grammar::allows))]
    pub(crate) fn scale(&mut self) -> Result<u8, LineError>
        ensures ok { IfOk result (λ scale. Takes Scale self.old self.new × (scale ≡ natural_value (next_token self.old))
            × (scale ≤ GREATEST_SCALE)) }
        ensures err { IfErr result (Misses Scale self.old) }
    {
        let token = self.token(Place::Scale)?;
        Ok(natural_value(token) as u8)
    }

    /// Takes an integer.
    #[tactic(auto, unfolding(crate::specs::Grammar::allows))]
    pub(crate) fn integer(&mut self) -> Result<i128, LineError>
        ensures ok { IfOk result (λ integer. Takes Integer self.old self.new × (integer ≡ integer_value (next_token self.old))
            × (unsigned_abs integer < 10 ^ 19)) }
        ensures err { IfErr result (Misses Integer self.old) }
    {
        let token = self.token(Place::Integer)?;
        Ok(integer_value(token))
    }

    /// Takes a natural number.
    #[tactic(auto, unfolding(crate::specs::Grammar::allows))]
    pub(crate) fn natural(&mut self) -> Result<u64, LineError>
        ensures ok { IfOk result (λ natural. Takes Natural self.old self.new × (natural ≡ natural_value (next_token self.old))) }
        ensures err { IfErr result (Misses Natural self.old) }
    {
        let token = self.token(Place::Natural)?;
        Ok(natural_value(token))
    }

    /// Takes the number of a session.
    #[tactic(auto, unfolding(crate::specs::Grammar::allows))]
    pub(crate) fn session(&mut self) -> Result<u32, LineError>
        ensures ok { IfOk result (λ session. Takes Session self.old self.new × (session ≡ natural_value (next_token self.old))
            × (1 ≤ session) × (session ≤ 4294967295)) }
        ensures err { IfErr result (Misses Session self.old) }
    {
        let token = self.token(Place::Session)?;
        Ok(natural_value(token) as u32)
    }

    /// Takes a range.
    #[tactic(auto, unfolding(crate::specs::Grammar::allows))]
    pub(crate) fn range(&mut self) -> Result<RangeWord, LineError>
        ensures ok { IfOk result (λ range. Takes Range self.old self.new × (range ≡ range_of (next_token self.old))) }
        ensures err { IfErr result (Misses Range self.old) }
    {
        let token = self.token(Place::Range)?;
        Ok(range_of(token))
    }

    /// Takes all tokens that are left, one at least, as values; missing ones only where they may be.
    pub(crate) fn values(&mut self, alloc: Global, may_miss: bool) -> Result<Values, LineError>
        ensures ok { IfOk result (λ values. (fault (length self.old.line) [] (one_or_more (value_place may_miss))
            (tokens_left self.old) self.old.at ≡ None)
            × (values ≡ map value_of (tokens_left self.old))) }
        ensures some { IfOk result (λ values. 0 < length values) }
        ensures there { may_miss ≡ false → IfOk result (λ values. All (λ value. IsSome value) values) }
        ensures err { IfErr result (MissesEnd (one_or_more (value_place may_miss)) self.old) }
    {
        let mut values = Vec::new(alloc);
        self.push_value(may_miss, &mut values)?;
        while self.has_token() {
            self.push_value(may_miss, &mut values)?;
        }
        Ok(Values::from_vec(values))
    }

    /// Takes a token as a value.
    fn push_value(
        &mut self,
        may_miss: bool,
        values: &mut Vec<Option<i128>>,
    ) -> Result<(), LineError>
        ensures ok { OnOk result (Takes (value_place may_miss) self.old self.new
            × (values.new.items ≡ values.old.items ++ value_of (next_token self.old) ∷ [])) }
        ensures there { may_miss ≡ false → OnOk result (IsSome (value_of (next_token self.old))) }
        ensures err { IfErr result (Misses (value_place may_miss) self.old) }
    {
        let token = self.token(value_place(may_miss))?;
        values.push(named_value(token))?;
        Ok(())
    }

    /// Takes the word `where` and the filter's text behind it, where a token is left.
    pub(crate) fn filter(&mut self, alloc: Global) -> Result<Option<FilterText>, LineError>
        ensures ok { IfOk result (λ filter. (fault (length self.old.line) [] (any_behind Where) (tokens_left self.old) self.old.at ≡ None)
            × (filter ≡ filter_of (tokens_left self.old))) }
        ensures short { IfOk result (λ filter. IfSome filter (λ text. length text ≤ 8192)) }
        ensures err { IfErr result (MissesEnd (any_behind Where) self.old) }
    {
        if !self.has_token() {
            return Ok(None);
        }
        self.token(Place::Where)?;
        let text = FilterText::new(alloc, self.rest())?;
        Ok(Some(text))
    }

    /// The bytes from the next token on.
    fn rest(&self) -> &'a [u8]
        ensures bytes { result.now ≡ drop self.now.at self.now.line }
        ensures short { length result.now ≤ 8192 }
    {
        &self.line[self.at.min(self.line.len())..]
    }

    /// Tests that no token is left.
    pub(crate) fn end(&self) -> Result<(), LineError>
        ensures ok { OnOk result (tokens_left self.now ≡ []) }
        ensures err { IfErr result (MissesEnd nothing self.now) }
    {
        if self.has_token() {
            return Err(LineError::BadLine { at: self.at as u32 });
        }
        Ok(())
    }
}

/// The value that a token names: a hyphen alone is a missing slot.
#[tactic(auto, unfolding(crate::specs::Requests::value_of))]
fn named_value(token: &[u8]) -> Option<i128>
    requires { IsTrue (is_integer token.now || bytes_eq token.now (codes "-")) }
    ensures { result ≡ value_of token.now }
{
    if token == b"-".as_slice() {
        return None;
    }
    Some(integer_value(token))
}

/// What each value of an append, where values may be missing, or of a set is.
fn value_place(may_miss: bool) -> Place
    ensures { result ≡ value_place may_miss }
{
    if may_miss {
        Place::Value
    } else {
        Place::Integer
    }
}
