//! Why a list of steps, done in a new heap, gave no record.

ghost use Rattle.heap_words.specs.Configs.{IsNewFault};
ghost use Rattle.heap_words.specs.declared.config.Config.{Config};
ghost use Rattle.heap_steps.specs.Faults.{IsRunFault};

use heap_words::config::NewFault;
use thiserror::Error;

/// Why a run gave no record.
#[derive(Clone, Copy, Debug, PartialEq, Eq, Error)]
pub enum RunFault {
    /// A count of workers or of background actors is out of range.
    #[error("1 BadWorkers")]
    BadWorkers,
    /// Memory was refused.
    #[error("2 NoMemory")]
    NoMemory,
    /// No thread could be started.
    #[error("3 NoWorker")]
    NoWorker,
    /// A script isn't at its end.
    #[error("4 Unfinished")]
    Unfinished,
    /// The heap's sizes don't suit.
    #[error("5 Heap")]
    Heap(NewFault),
}

/// The run's fault where no heap was made.
///
/// ```rust
/// use heap_words::config::NewFault;
/// use heap_steps::{RunFault, run_fault};
///
/// assert_eq!(rt; run_fault(NewFault::NoMemory), RunFault::NoMemory);
/// assert_eq!(rt; run_fault(NewFault::BadWords), RunFault::Heap(NewFault::BadWords));
/// ```
pub fn run_fault(fault: NewFault) -> RunFault
    ensures { (config : Config) → IsNewFault config fault → IsRunFault config result }
{
    match fault {
        NewFault::NoMemory => RunFault::NoMemory,
        other => RunFault::Heap(other),
    }
}
