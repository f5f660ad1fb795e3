ghost use Rattle.job.specs.Refusals.{refusal_of};
ghost use Rattle.job.specs.declared.fault.JobFault.TheVariants.{Netlist as OfNetlist};
ghost use Rattle.std.specs.Prelude.{◌≡◌};

use crate::split::MAX_JOB;
use circuit::refusal::{Layer, Refusal};
use netlist::fault::NetlistFault;

// Why a job is refused as a whole.
#[derive(Clone, Copy, PartialEq, Eq, Debug)]
pub enum JobFault {
    TooLarge,
    NoPercentLine { length: usize },
    Netlist(NetlistFault),
}

impl From<NetlistFault> for JobFault {
    ghost from_gives = { λ e r. r ≡ OfNetlist e };

    fn from(fault: NetlistFault) -> Self {
        JobFault::Netlist(fault)
    }
}

impl From<JobFault> for Refusal {
    ghost from_gives = { λ e r. r ≡ refusal_of e };

    fn from(fault: JobFault) -> Self {
        let (number, place) = match fault {
            JobFault::TooLarge => (1, MAX_JOB),
            JobFault::NoPercentLine { length } => (22, length),
            JobFault::Netlist(fault) => return fault.into(),
        };
        Refusal {
            number,
            place,
            layer: Layer::Job,
        }
    }
}
