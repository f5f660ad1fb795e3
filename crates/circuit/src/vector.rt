ghost use Rattle.std.specs.Prelude.{◌≡◌};
ghost use Rattle.circuit.specs.Vectors.{bad_at, fits, vector_outcome};
ghost use Rattle.circuit.specs.declared.vector.EvaluationFault.TheVariants.{Vector as OfVector};

// Why a vector is not taken.
#[derive(Clone, Copy, PartialEq, Eq, Debug)]
pub enum VectorFault {
    Length { length: usize },
    Byte { index: usize },
}

// Why a circuit is not evaluated.
#[derive(Clone, Copy, PartialEq, Eq, Debug)]
pub enum EvaluationFault {
    TooFewCells,
    Vector(VectorFault),
}

impl From<VectorFault> for EvaluationFault {
    ghost from_gives = { λ e r. r ≡ OfVector e };

    fn from(fault: VectorFault) -> Self {
        EvaluationFault::Vector(fault)
    }
}

fn is_allowed(byte: u8, x_allowed: bool) -> bool
    ensures { result ≡ fits x_allowed byte }
{
    match byte {
        b'0' | b'1' => true,
        b'X' => x_allowed,
        _ => false,
    }
}

fn first_bad(vector: &[u8], x_allowed: bool) -> Option<usize>
    ensures { result ≡ bad_at x_allowed vector.now }
{
    vector.iter().position(|byte| !is_allowed(*byte, x_allowed))
}

// Whether the vector has a byte for each input, each 0, 1, or X where that is allowed.
pub fn check_vector(vector: &[u8], inputs: usize, x_allowed: bool) -> Result<(), VectorFault>
    ensures { result ≡ vector_outcome x_allowed inputs vector.now }
{
    if vector.len() != inputs {
        return Err(VectorFault::Length {
            length: vector.len(),
        });
    }
    match first_bad(vector, x_allowed) {
        Some(index) => Err(VectorFault::Byte { index }),
        None => Ok(()),
    }
}
