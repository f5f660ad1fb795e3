ghost use Rattle.std.specs.Prelude.{◌≡◌, ◌==◌, ◌≤◌, length, map, position};
ghost use Rattle.std.specs.Iterator.{YieldsFirst, item_count};
ghost use Rattle.std.specs.Option.{ForSome};
ghost use Rattle.netlist.specs.Reading.{statements_after, statements_from};
ghost use Rattle.netlist.specs.Statements.{said};
ghost use Rattle.netlist.specs.Tokens.{line, lines_after, Next};
ghost use Rattle.netlist.specs.declared.state.State.TheVariants.{Start as AtStart};

use crate::fault::TokenFault;
use crate::state::{State, advance};
use crate::statement::Statement;
use crate::text::Text;
use crate::tokens::Tokens;
use std::ops::ControlFlow;

// How many bytes stand before the first byte 10.
fn line_len(bytes: &[u8]) -> Option<usize>
    ensures { result ≡ position (λ b. b == 10) bytes.now }
{
    bytes.iter().position(|byte| *byte == b'\n')
}

// Where the text line after the one at `at` begins; none where the text ends first.
fn next_line(bytes: &[u8], at: usize) -> Option<usize>
    requires { at ≤ length bytes.now }
    ensures { Next bytes.now at result }
{
    let length = line_len(&bytes[at..])?;
    Some(at + length + 1)
}

// What the text lines say, one by one. A line is looked for when it is asked for, from where the tokens of
// the one before it `end`, so that nothing past a refused token is read; none have been read where that is none.
#[derive(Clone, Copy)]
pub struct Statements<'a> {
    text: Text<'a>,
    end: Option<usize>,
    ghost inside: { ForSome end (λ at. at ≤ length text.bytes.now) },
}

impl<'a> Statements<'a> {
    pub(crate) fn of(text: Text<'a>) -> Statements<'a>
        ensures { statements_after result.text.bytes.now result.end ≡ statements_from text.entry.bytes.now 0 }
    {
        Statements { text, end: None }
    }

    // What the text line that begins at `at` says; `end` is where its tokens end, or `at` if it is refused.
    fn read_statement(&mut self, at: usize) -> Result<Statement, TokenFault>
        requires { at ≤ length self.old.text.bytes.now }
        ensures says { result ≡ said AtStart (line self.old.text.bytes.now at) }
        ensures text { self.new.text.bytes.now ≡ self.old.text.bytes.now }
        ensures after { let text = self.old.text.bytes.now in
            statements_after text self.new.end ≡ map (said AtStart) (lines_after text at) }
    {
        self.end = Some(at);
        let tokens = Tokens {
            text: self.text.bytes,
            next: Some(at),
        };
        let mut state = State::Start;
        for token in tokens {
            match advance(state, token)? {
                ControlFlow::Continue(next) => state = next,
                ControlFlow::Break(statement) => {
                    self.end = Some(token.place());
                    return Ok(statement);
                }
            }
        }
        unreachable!()
    }
}

impl Iterator for Statements<'_> {
    type Item = Result<Statement, TokenFault>;

    ghost next_gives = { YieldsFirst (λ s. statements_after s.text.bytes.now s.end) };

    ghost remaining = { item_count (λ s. statements_after s.text.bytes.now s.end) };

    fn next(&mut self) -> Option<Result<Statement, TokenFault>> {
        let at = match self.end {
            None => 0,
            Some(end) => next_line(self.text.bytes, end)?,
        };
        Some(self.read_statement(at))
    }
}
