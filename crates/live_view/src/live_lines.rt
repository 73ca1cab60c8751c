//! The lines that follow a session and that end it.
ghost use Rattle.std.specs.Prelude.{◌≡◌, ◌+◌, ◌<◌, ◌≤◌, length, drop, IfOk};
ghost use Rattle.std.specs.List.{before_first};
ghost use Rattle.request_lines.specs.Tokens.{is_space, tokens_left};
ghost use Rattle.live_view.specs.Lines.{session_alone, follows, unfollows, live_line, NamesSession};
ghost use Rattle.chart_frames.specs.Frames.{IsSession};

use request_lines::places::Place;
use request_lines::tokens::first_token;
use whole_number::numbers::natural_value;

/// The most bytes of a line.
pub const LONGEST_LINE: usize = 8_192;

/// What a line asks of live views.
#[derive(Clone, Copy)]
pub enum LiveLine {
    /// `follow N`: the edits of the session's series are to be pushed to it.
    Follow { session: u32 },
    /// `unfollow N`: they aren't any more.
    Unfollow { session: u32 },
    /// The line begins as one of these; `at` is the offset of the first token that isn't what its place
    /// allows, or the line's length where a token is missing.
    Bad { at: u32 },
    /// Any other line, one of more than 8,192 bytes too.
    Other,
}

/// What a line asks of live views.
pub fn live_line(line: &[u8]) -> LiveLine
    ensures asked { result ≡ live_line line.now }
    ensures named { NamesSession result }
{
    if line.len() > LONGEST_LINE {
        return LiveLine::Other;
    }
    let word = first_token(line);
    if word == b"follow".as_slice() {
        return follows(session_alone(line, word.len() + 1));
    }
    if word == b"unfollow".as_slice() {
        return unfollows(session_alone(line, word.len() + 1));
    }
    LiveLine::Other
}

/// Following the session, or the offset of the fault.
fn follows(session: Result<u32, u32>) -> LiveLine
    requires { IfOk session IsSession }
    ensures asked { result ≡ follows session }
    ensures named { NamesSession result }
{
    match session {
        Ok(session) => LiveLine::Follow { session },
        Err(at) => LiveLine::Bad { at },
    }
}

/// Ending this.
fn unfollows(session: Result<u32, u32>) -> LiveLine
    requires { IfOk session IsSession }
    ensures asked { result ≡ unfollows session }
    ensures named { NamesSession result }
{
    match session {
        Ok(session) => LiveLine::Unfollow { session },
        Err(at) => LiveLine::Bad { at },
    }
}

/// The session whose number is the only token from an offset on; else the offset of the first token that
/// isn't what its place allows, or the line's length where there is none.
#[tactic(auto, unfolding(request_lines::specs::Grammar::allows))]
fn session_alone(line: &[u8], at: usize) -> Result<u32, u32>
    requires short { length line.now ≤ 8192 }
    requires within { at ≤ length line.now + 1 }
    ensures alone { result ≡ session_alone (length line.now) (tokens_left (record { line = line.now; at = at })) at }
    ensures named { IfOk result IsSession }
{
    if at > line.len() {
        return Err(line.len() as u32);
    }
    let token = token_at(line, at);
    if !Place::Session.allows(token) {
        return Err(at as u32);
    }
    let past = at + token.len() + 1;
    if past <= line.len() {
        return Err(past as u32);
    }
    Ok(natural_value(token) as u32)
}

/// The token that begins at an offset.
fn token_at(line: &[u8], at: usize) -> &[u8]
    requires { at ≤ length line.now }
    ensures token { result.now ≡ before_first is_space (drop at line.now) }
    ensures within { at + length result.now ≤ length line.now }
{
    first_token(&line[at..])
}
