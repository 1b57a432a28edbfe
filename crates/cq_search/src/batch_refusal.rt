//! The status of a call that ends with the refusal of a batch.
ghost use Rattle.std.specs.Prelude.{◌≡◌};
ghost use Rattle.cq_search.specs.Internal.BatchRefusal.{status_after};

use cq_common::Refusal;
use cq_query_files::Status;
use pgn_batches::BatchFault;

/// Returns the status of a call that ends with the refusal of a batch.
pub fn status_of(refusal: Refusal<BatchFault>) -> Status
    ensures { result ≡ status_after refusal }
{
    match refusal {
        Refusal::Fault(BatchFault::ReadFault) => Status::ReadFault,
        Refusal::Fault(BatchFault::ArchiveTooLong) => Status::ArchiveTooLong,
        Refusal::NoMemory => Status::NoMemory,
    }
}
