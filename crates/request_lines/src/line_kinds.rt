ghost use Rattle.std.specs.Prelude.{◌≡◌};
ghost use Rattle.request_lines.specs.Grammar.{kind_of};

/// The kinds of lines.
#[derive(Clone, Copy)]
pub enum LineKind {
    Create,
    Append,
    Set,
    Clear,
    Open,
    View,
    Zoom,
    Pan,
    Close,
}

impl LineKind {
    /// The kind of a line by its first word.
    #[tactic(auto, unfolding(crate::specs::Grammar::kind_of))]
    pub fn of(word: &[u8]) -> Option<LineKind>
        ensures { result ≡ kind_of word.now }
    {
        if word == b"create".as_slice() {
            Some(LineKind::Create)
        } else if word == b"append".as_slice() {
            Some(LineKind::Append)
        } else if word == b"set".as_slice() {
            Some(LineKind::Set)
        } else if word == b"clear".as_slice() {
            Some(LineKind::Clear)
        } else if word == b"open".as_slice() {
            Some(LineKind::Open)
        } else if word == b"view".as_slice() {
            Some(LineKind::View)
        } else if word == b"zoom".as_slice() {
            Some(LineKind::Zoom)
        } else if word == b"pan".as_slice() {
            Some(LineKind::Pan)
        } else if word == b"close".as_slice() {
            Some(LineKind::Close)
        } else {
            None
        }
    }
}
