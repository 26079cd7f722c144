ghost use Rattle.std.specs.Prelude.{◌≡◌, ◌+◌, ◌<◌, ℕ, List, map, length, drop, position};
ghost use Rattle.std.specs.Option.{option_map};
ghost use Rattle.sm_grammar.specs.Parted.{Placed, parted, AreParted};
ghost use Rattle.sm_grammar.specs.Words.{is_blank, words_of, words_left, first_of};

/// The words of a line that were not read yet.
#[derive(Clone, Copy)]
pub struct Words<'a> {
    rest: &'a [u8],
}

fn blank(text: &[u8]) -> Option<usize>
    ensures { result ≡ position is_blank text.now }
{
    text.iter().position(|b| *b == b' ' || *b == b'\t')
}

fn behind(text: &[u8], at: usize) -> &[u8]
    requires { at < length text.now }
    ensures { result.now ≡ drop (at + 1) text.now }
{
    &text[at + 1..]
}

/// The first word of a text, and the words behind it.
fn first_word(text: &[u8]) -> Option<(&[u8], Words<'_>)>
    ensures { option_map (λ f. (f.0.now, words_left f.1)) result ≡ first_of (words_of text.now) }
{
    let mut text = text;
    while let Some(at) = blank(text) {
        let rest = behind(text, at);
        if at > 0 {
            return Some((&text[..at], Words { rest }));
        }
        text = rest;
    }
    if text.is_empty() {
        None
    } else {
        Some((text, Words { rest: &[] }))
    }
}

impl<'a> Words<'a> {
    /// The words of a line.
    pub fn of(line: &'a [u8]) -> Words<'a>
        ensures words { words_left result ≡ words_of line.now }
        ensures parted { (ps : List Placed) (end : List ℕ) → AreParted ps end → words_of (parted ps end) ≡ map (λ p. p.word) ps }
    {
        Words { rest: line }
    }

    /// The first word, and the words behind it.
    pub fn next(self) -> Option<(&'a [u8], Words<'a>)>
        ensures { option_map (λ f. (f.0.now, words_left f.1)) result ≡ first_of (words_left self.entry) }
    {
        first_word(self.rest)
    }
}
