ghost use Rattle.std.specs.Prelude.{◌≡◌};
ghost use Rattle.std.specs.Option.{option_map};
ghost use Rattle.sm_grammar.specs.Forms.{behind, form_among, form_of};
ghost use Rattle.sm_grammar.specs.Words.{words_left};

use crate::table::{Form, forms};
use crate::words::Words;

/// The words behind the first ones, where these stand at the front.
fn behind<'a>(first: Words<'_>, words: Words<'a>) -> Option<Words<'a>>
    ensures { option_map (λ w. words_left w) result ≡ behind (words_left first.entry) (words_left words.entry) }
{
    let mut first = first;
    let mut words = words;
    while let Some((wanted, more)) = first.next() {
        let (word, rest) = words.next()?;
        if word != wanted {
            return None;
        }
        first = more;
        words = rest;
    }
    Some(words)
}

fn form_among<'a>(forms: &[Form], words: Words<'a>) -> Option<(Form, Words<'a>)>
    ensures { option_map (λ f. (f.0, words_left f.1)) result ≡ form_among forms.now (words_left words.entry) }
{
    for form in forms {
        if let Some(rest) = behind(Words::of(form.text()), words) {
            return Some((*form, rest));
        }
    }
    None
}

/// The command that stands at the front, and the words behind it.
#[tactic(auto, unfolding(crate::specs::Forms::form_of))]
pub fn form_of(words: Words<'_>) -> Option<(Form, Words<'_>)>
    ensures { option_map (λ f. (f.0, words_left f.1)) result ≡ form_of (words_left words.entry) }
{
    form_among(forms(), words)
}
