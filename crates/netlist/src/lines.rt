ghost use Rattle.std.specs.Prelude.{◌≡◌, ◌≤◌, length, replicate, is_some};
ghost use Rattle.netlist.specs.Definitions.{line_of, resolved, declares, gates, defined};
ghost use Rattle.netlist.specs.Keywords.{port_of, kind_of};
ghost use Rattle.netlist.specs.Names.{bytes_of};

use crate::fault::NetlistFault;
use crate::keyword::{Port, kind_named, port_named};
use crate::name::{name_of, part};
use crate::statement::{Declaration, Gate, Statement};
use crate::text::Text;
use circuit::kind::Kind;
use circuit::limit::MAX_INPUTS;
use circuit::row::{Row, Span, input_count};

// The first line among the rows given that the word names.
pub(crate) fn find(text: Text, rows: &[Row], word: Span) -> Option<usize>
    ensures { result ≡ line_of text.entry.bytes.now rows.now word }
{
    let name = part(text.bytes, word);
    rows.iter().position(|row| name_of(text.bytes, row) == name)
}

// The lines that the text lines so far define.
#[derive(Clone, Copy)]
pub(crate) struct Lines<'a> {
    pub text: Text<'a>,
    pub rows: &'a [Row],
    ghost few: { length rows.now ≤ 1024 },
}

impl Lines<'_> {
    fn has(self, word: Span) -> bool
        ensures { result ≡ is_some (line_of self.entry.text.bytes.now self.entry.rows.now word) }
    {
        find(self.text, self.rows, word).is_some()
    }

    // The lines of a gate's pins, or the first pin that is not defined yet.
    fn resolve(self, pins: &[Span]) -> Result<[u16; 8], NetlistFault>
        requires { length pins.now ≤ 8 }
        ensures { let text = self.entry.text.bytes.now in
            result ≡ resolved text self.entry.rows.now pins.now (replicate 8 0) 0 }
    {
        let mut lines = [0u16; 8];
        for (i, pin) in pins.iter().enumerate() {
            let Some(line) = find(self.text, self.rows, *pin) else {
                return Err(NetlistFault::UndefinedPin {
                    place: pin.offset as usize,
                });
            };
            lines[i] = line as u16;
        }
        Ok(lines)
    }

    // The row of an INPUT; an OUTPUT has none.
    fn declared(self, declaration: Declaration) -> Result<Option<Row>, NetlistFault>
        ensures { let text = self.entry.text.bytes.now in
            let port = port_of (bytes_of text declaration.keyword) in
            result ≡ declares text self.entry.rows.now port declaration }
    {
        let Declaration { keyword, word } = declaration;
        match port_named(part(self.text.bytes, keyword)) {
            None => Err(NetlistFault::UnknownKeyword {
                place: keyword.offset as usize,
            }),
            Some(Port::Output) => Ok(None),
            Some(Port::Input) => {
                let place = word.offset as usize;
                if self.has(word) {
                    return Err(NetlistFault::Redefined { place });
                }
                if input_count(self.rows) >= MAX_INPUTS {
                    return Err(NetlistFault::TooManyInputs { place });
                }
                Ok(Some(Row {
                    kind: Some(Kind::Input),
                    name: word,
                    ..Row::BLANK
                }))
            }
        }
    }

    // The row of a gate.
    fn driven(self, gate: Gate, close: usize) -> Result<Row, NetlistFault>
        ensures { let text = self.entry.text.bytes.now in
            let kind = kind_of (bytes_of text gate.kind) in
            result ≡ gates text self.entry.rows.now kind gate close }
    {
        let Gate { line, kind, pins } = gate;
        let place = kind.offset as usize;
        let named = kind_named(part(self.text.bytes, kind)).ok_or(NetlistFault::UnknownKeyword {
            place,
        })?;
        let pins = pins
            .filter(|pins| named.takes(usize::from(pins.count)))
            .ok_or(NetlistFault::PinCount { place: close })?;
        if self.has(line) {
            return Err(NetlistFault::Redefined {
                place: line.offset as usize,
            });
        }
        let lines = self.resolve(pins.used())?;
        Ok(Row {
            kind: Some(named),
            count: pins.count,
            pins: lines,
            output: false,
            name: line,
        })
    }

    // The row that a statement defines after these lines, if it defines one.
    pub(crate) fn row_of(self, statement: Statement) -> Result<Option<Row>, NetlistFault>
        ensures { result ≡ defined self.entry.text.bytes.now self.entry.rows.now statement }
    {
        match statement {
            Statement::Empty => Ok(None),
            Statement::Declaration(declaration) => self.declared(declaration),
            Statement::Gate { gate, close } => self.driven(gate, close).map(Some),
        }
    }
}
