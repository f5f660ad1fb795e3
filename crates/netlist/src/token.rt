ghost use Rattle.std.specs.Prelude.{◌≡◌, ◌≤◌, ◌∷◌, length};
ghost use Rattle.std.specs.List.{prefix_len};
ghost use Rattle.std.specs.Option.{ForSome};
ghost use Rattle.netlist.specs.Bytes.{word_byte, blank_byte};
ghost use Rattle.netlist.specs.Tokens.{line, place_of, tok, tokens_of};

use crate::byte::{is_blank, is_stop, is_word_byte};

// A token of a text line. A word borrows its part of the text. The end of the line stands at its byte 10,
// at its `#` or at the text's end.
#[derive(Clone, Copy)]
pub enum Token<'a> {
    Word { bytes: &'a [u8], place: usize },
    Mark { byte: u8, place: usize },
    End { place: usize },
}

impl Token<'_> {
    pub fn place(self) -> usize
        ensures { result ≡ place_of self.entry }
    {
        match self {
            Token::Word { place, .. } | Token::Mark { place, .. } | Token::End { place } => place,
        }
    }
}

// How many blanks the text begins with.
fn blanks(text: &[u8]) -> usize
    ensures value { result ≡ prefix_len blank_byte text.now }
    ensures few { result ≤ length text.now }
{
    text.iter().take_while(|byte| is_blank(**byte)).count()
}

// How long the word is that the text begins with.
fn word_len(text: &[u8]) -> usize
    ensures value { result ≡ prefix_len word_byte text.now }
    ensures few { result ≤ length text.now }
{
    text.iter().take_while(|byte| is_word_byte(**byte)).count()
}

// The first token from `at` on, and where the next one is looked for; none after the line's end.
pub(crate) fn next_token<'a>(text: &'a [u8], at: usize) -> (Token<'a>, Option<usize>)
    requires { at ≤ length text.now }
    ensures first { line text.now at ≡ tok result.0 ∷ tokens_of text.now result.1 }
    ensures inside { ForSome result.1 (λ next. next ≤ length text.now) }
{
    let start = at + blanks(&text[at..]);
    if start >= text.len() || is_stop(text[start]) {
        return (Token::End { place: start }, None);
    }
    if !is_word_byte(text[start]) {
        let mark = Token::Mark {
            byte: text[start],
            place: start,
        };
        return (mark, Some(start + 1));
    }
    let end = start + word_len(&text[start..]);
    let word = Token::Word {
        bytes: &text[start..end],
        place: start,
    };
    (word, Some(end))
}
