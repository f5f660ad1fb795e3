ghost use Rattle.std.specs.Prelude.{◌≤◌, length};
ghost use Rattle.std.specs.Iterator.{YieldsFirstBy, item_count};
ghost use Rattle.std.specs.Option.{ForSome};
ghost use Rattle.netlist.specs.Tokens.{tok, tokens_of};

use crate::token::{Token, next_token};

// The tokens of a text line, one by one; `next` is where the next of them is looked for.
#[derive(Clone, Copy)]
pub struct Tokens<'a> {
    pub text: &'a [u8],
    pub next: Option<usize>,
    ghost inside: { ForSome next (λ at. at ≤ length text.now) },
}

impl<'a> Iterator for Tokens<'a> {
    type Item = Token<'a>;

    ghost next_gives = { YieldsFirstBy tok (λ s. tokens_of s.text.now s.next) };

    ghost remaining = { item_count (λ s. tokens_of s.text.now s.next) };

    fn next(&mut self) -> Option<Token<'a>> {
        let (token, next) = next_token(self.text, self.next?);
        self.next = next;
        Some(token)
    }
}
