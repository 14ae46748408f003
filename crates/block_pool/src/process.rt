// What a pass has of its process.
use pool_machine::PoolView;
use pool_table::PoolSeat;
use transfer_machine::TransferView;

/// The process of a pass: its seat, and what the machine knows of it, by its parts. Which call it is in, and how many
/// steps that made, is told by the code.
#[derive(Drop)]
pub struct Process {
    /// What steps on the pool's table.
    pub seat: PoolSeat,
    /// Its part of the transfers.
    pub transfer: TransferView,
    /// Its private pool.
    pub pool: PoolView,
}
