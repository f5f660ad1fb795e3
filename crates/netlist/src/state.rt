ghost use Rattle.std.specs.Prelude.{◌≡◌, ◌≤◌};
ghost use Rattle.netlist.specs.Statements.{span_of, stepped, Placed};
ghost use Rattle.netlist.specs.Tokens.{tok};

use crate::fault::TokenFault;
use crate::pins::Pins;
use crate::statement::{Declaration, Gate, Statement};
use crate::token::Token;
use circuit::row::Span;
use std::ops::ControlFlow;

// How many bytes a word may have.
const MAX_WORD: usize = 16;

// How far a text line has been read.
#[derive(Clone, Copy)]
pub enum State {
    Start,
    Named { word: Span },
    Declaring { keyword: Span },
    Declared(Declaration),
    DeclarationClosed(Declaration),
    Driven { line: Span },
    Kinded { line: Span, kind: Span },
    Opened(Gate),
    Pinned(Gate),
    GateClosed { gate: Gate, close: usize },
}

// Where a word stands, if it is not too long.
fn word_span(bytes: &[u8], place: usize) -> Result<Span, TokenFault>
    requires { place ≤ 1048576 }
    ensures { result ≡ span_of bytes.now place }
{
    if bytes.len() <= MAX_WORD {
        Ok(Span {
            offset: place as u32,
            len: bytes.len() as u8,
        })
    } else {
        Err(TokenFault::TooLong { place })
    }
}

// What a token leads to: another state, or the whole statement. Form is judged before length: a word is
// measured only where one may stand.
pub(crate) fn advance(
    state: State,
    token: Token,
) -> Result<ControlFlow<Statement, State>, TokenFault>
    requires { Placed token }
    ensures { result ≡ stepped state (tok token.entry) }
{
    let next = match (state, token) {
        (State::Start, Token::Word { bytes, place }) => State::Named {
            word: word_span(bytes, place)?,
        },
        (State::Named { word }, Token::Mark { byte: b'(', .. }) => State::Declaring {
            keyword: word,
        },
        (State::Declaring { keyword }, Token::Word { bytes, place }) => {
            State::Declared(Declaration {
                keyword,
                word: word_span(bytes, place)?,
            })
        }
        (State::Declared(declaration), Token::Mark { byte: b')', .. }) => {
            State::DeclarationClosed(declaration)
        }
        (State::Named { word }, Token::Mark { byte: b'=', .. }) => State::Driven { line: word },
        (State::Driven { line }, Token::Word { bytes, place }) => {
            State::Kinded {
                line,
                kind: word_span(bytes, place)?,
            }
        }
        (State::Kinded { line, kind }, Token::Mark { byte: b'(', .. }) => {
            State::Opened(Gate {
                line,
                kind,
                pins: Some(Pins::NONE),
            })
        }
        (State::Opened(gate), Token::Word { bytes, place }) => {
            State::Pinned(gate.with(word_span(bytes, place)?))
        }
        (State::Pinned(gate), Token::Mark { byte: b',', .. }) => State::Opened(gate),
        (State::Pinned(gate), Token::Mark { byte: b')', place }) => {
            State::GateClosed { gate, close: place }
        }
        (State::Start, Token::End { .. }) => return Ok(ControlFlow::Break(Statement::Empty)),
        (State::DeclarationClosed(declaration), Token::End { .. }) => {
            return Ok(ControlFlow::Break(Statement::Declaration(declaration)));
        }
        (State::GateClosed { gate, close }, Token::End { .. }) => {
            return Ok(ControlFlow::Break(Statement::Gate { gate, close }));
        }
        _ => return Err(TokenFault::OutOfForm {
            place: token.place(),
        }),
    };
    Ok(ControlFlow::Continue(next))
}
