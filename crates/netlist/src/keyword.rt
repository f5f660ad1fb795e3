ghost use Rattle.netlist.specs.Keywords.{kind_of, port_of};
ghost use Rattle.std.specs.Prelude.{◌≡◌};

use circuit::kind::Kind;

// What a declaration makes of its word.
#[derive(Clone, Copy)]
pub enum Port {
    Input,
    Output,
}

// Keywords are in capitals.
pub(crate) fn port_named(word: &[u8]) -> Option<Port>
    ensures { result ≡ port_of word.now }
{
    match word {
        b"INPUT" => Some(Port::Input),
        b"OUTPUT" => Some(Port::Output),
        _ => None,
    }
}

// The kind of a gate. An input is declared, and no gate.
pub(crate) fn kind_named(word: &[u8]) -> Option<Kind>
    ensures { result ≡ kind_of word.now }
{
    match word {
        b"AND" => Some(Kind::And),
        b"NAND" => Some(Kind::Nand),
        b"OR" => Some(Kind::Or),
        b"NOR" => Some(Kind::Nor),
        b"XOR" => Some(Kind::Xor),
        b"XNOR" => Some(Kind::Xnor),
        b"NOT" => Some(Kind::Not),
        b"BUFF" => Some(Kind::Buff),
        _ => None,
    }
}
