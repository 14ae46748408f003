// What a call of the outside answers for an answer of the system.
ghost use Rattle.std.specs.Prelude.{◌≡◌, ◌<◌, ◌≤◌, ◌⊎◌, length, IfOk, OnOk, OnErr, IsErr};
ghost use Rattle.std.specs.Result.{result_ok};
ghost use Rattle.pool_io.specs.Counts.{one_more};

use crate::Failed;
use crate::counts::raise;

/// Counts a fault.
fn fault(faults: &mut u64) -> Failed
    ensures raised { faults.new ≡ one_more faults.old }
    ensures never_falls { faults.old ≤ faults.new }
{
    raise(faults);
    Failed
}

/// The system's value. Where the system failed, that is counted.
pub(crate) fn counted<T: Drop, E: Drop>(faults: &mut u64, answer: Result<T, E>) -> Result<T, Failed>
    ensures value { result_ok result ≡ result_ok answer }

    ensures failed { OnErr result (faults.new ≡ one_more faults.old) }
    ensures no_fault { OnOk result (faults.new ≡ faults.old) }
    ensures never_falls { faults.old ≤ faults.new }
{
    match answer {
        Ok(value) => Ok(value),
        Err(_) => Err(fault(faults)),
    }
}

/// How many bytes of a piece a write took, as the system says. Where the system failed, or took nothing of a
/// piece that has a byte, that is counted.
pub(crate) fn counted_write<E: Drop>(
    faults: &mut u64,
    piece: &[u8],
    answer: Result<usize, E>,
) -> Result<usize, Failed>
    ensures count { IfOk result (λ count. result_ok answer ≡ Some count) }
    ensures some { IfOk result (λ count. 0 < length piece.now → 0 < count) }
    ensures fails { IsErr result → IsErr answer ⊎ ((result_ok answer ≡ Some 0) × (0 < length piece.now)) }

    ensures failed { OnErr result (faults.new ≡ one_more faults.old) }
    ensures no_fault { OnOk result (faults.new ≡ faults.old) }
    ensures never_falls { faults.old ≤ faults.new }
{
    match answer {
        Ok(0) if !piece.is_empty() => Err(fault(faults)),
        answer => counted(faults, answer),
    }
}
