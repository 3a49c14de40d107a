ghost use Rattle.std.specs.Prelude.{◌≡◌, ◌+◌, ◌^◌, ◌<◌, ◌≤◌, ◌++◌, length, IfSome, IfNone};
ghost use Rattle.script_lang.specs.Parts.{AreOfWord, BeginsWord, EndsWord, IsCut, Separate, place_past};
ghost use Rattle.script_lang.specs.Words.{place_behind, separates};

/// What stands between the words of a text.
#[derive(Clone, Copy)]
pub enum Separators {
    /// Spaces alone.
    Spaces,
    /// Spaces, tabs, line feeds and carriage returns.
    Blanks,
}

impl Separators {
    fn contains(self, b: u8) -> bool
        ensures { result ≡ separates self b }
    {
        match self {
            Separators::Spaces => b == b' ',
            Separators::Blanks => matches!(b, b' ' | b'\t' | b'\n' | b'\r'),
        }
    }
}

/// Where a byte of a text stands: its line, and which byte of that line it is, both counted from 1.
#[derive(Clone, Copy)]
pub struct Place {
    pub line: u32,
    pub column: u32,
}

impl Place {
    /// Where a text begins.
    pub const FIRST: Place = Place { line: 1, column: 1 };

    /// Where the byte behind this one stands, which stands here.
    fn behind(self, b: u8) -> Place
        requires counted { 1 ≤ self.column }
        requires within { self.line + self.column + 1 < 2 ^ 32 }
        ensures place { result ≡ place_behind b self }
        ensures counted { 1 ≤ result.column }
        ensures within { result.line + result.column ≤ self.line + self.column + 1 }
    {
        if b == b'\n' {
            return Place {
                line: self.line + 1,
                column: 1,
            };
        }
        Place {
            line: self.line,
            column: self.column + 1,
        }
    }

    /// Where the byte behind these bytes stands, the first of which stands here.
    pub fn past(self, bytes: &[u8]) -> Place
        requires counted { 1 ≤ self.column }
        requires within { self.line + self.column + length bytes.now < 2 ^ 32 }
        ensures place { result ≡ place_past bytes.now self }
        ensures counted { 1 ≤ result.column }
        ensures within { result.line + result.column ≤ self.line + self.column + length bytes.now }
    {
        let mut place = self;
        for b in bytes {
            place = place.behind(*b);
        }
        place
    }
}

/// The separators at the front of a text, and what is left behind them.
fn split_separators(separators: Separators, text: &[u8]) -> (&[u8], &[u8])
    ensures whole { result.0.now ++ result.1.now ≡ text.now }
    ensures between { Separate separators result.0.now }
    ensures begins { BeginsWord separators result.1.now }
{
    for (i, b) in text.iter().enumerate() {
        if !separators.contains(*b) {
            return text.split_at(i);
        }
    }
    (text, &[])
}

/// The bytes in front of the first separator of a text, and what is left from there on.
fn split_word(separators: Separators, text: &[u8]) -> (&[u8], &[u8])
    ensures whole { result.0.now ++ result.1.now ≡ text.now }
    ensures plain { AreOfWord separators result.0.now }
    ensures ends { EndsWord separators result.1.now }
{
    for (i, b) in text.iter().enumerate() {
        if separators.contains(*b) {
            return text.split_at(i);
        }
    }
    (text, &[])
}

/// The separators in front of the first word of a text, that word, and the text behind it. `None` says that the text
/// has no word.
pub fn next_word(separators: Separators, text: &[u8]) -> Option<(&[u8], &[u8], &[u8])>
    ensures cut { IfSome result (λ cut. IsCut separators text.now cut.0.now cut.1.now cut.2.now) }
    ensures shorter { IfSome result (λ cut. length cut.2.now < length text.now) }
    ensures none { IfNone result (Separate separators text.now) }
{
    let (front, rest) = split_separators(separators, text);
    if rest.is_empty() {
        return None;
    }
    let (word, behind) = split_word(separators, rest);
    Some((front, word, behind))
}
