ghost use Rattle.head.specs.Meaning.{binary, binary_outcome, measured, Lawful, Meaning};
ghost use Rattle.std.specs.Prelude.{◌≡◌, IfErr, Err as Refused};

use crate::fault::HeadFault;

// Whether each byte is 0 or 1; every other string is open.
pub fn is_binary(vector: &[u8]) -> bool
    ensures { result ≡ binary vector.now }
{
    vector.iter().all(|byte| matches!(*byte, b'0' | b'1'))
}

// Refuses what a head of this width does not answer: a vector of another length, then one that is not binary.
pub fn check_binary(vector: &[u8], width: usize, adaptors: u8) -> Result<(), HeadFault>
    ensures outcome { result ≡ binary_outcome width adaptors vector.now }
    ensures refuses { IfErr result (λ fault. (m : Meaning) → Lawful m → m.width ≡ width → m.adaptors ≡ adaptors → measured m vector.now ≡ Refused fault) }
{
    if vector.len() != width {
        return Err(HeadFault::Width { adaptors });
    }
    if !is_binary(vector) {
        return Err(HeadFault::Open { adaptors });
    }
    Ok(())
}
