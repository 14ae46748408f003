// The beginning of an allocate or a free.
ghost use Rattle.std.specs.Prelude.{◌≡◌};
ghost use Rattle.pool_machine.specs.Beginning.{due};
ghost use Rattle.block_pool.specs.Running.{CanBeginDue, transfer_begun, pool_begun_by};

use crate::process::Process;
use pool_machine::newest;
use transfer_schedule::Pending;
use word_layout::Wish;

impl Process {
    /// Begins the transfer that is due as an allocate or a free begins: where none is pending, a take with at most one
    /// spare, or a give of the newest of three.
    #[inline(always)]
    pub fn begin(&mut self)
        requires { CanBeginDue self.old.pool }
        ensures seat { self.new.seat ≡ self.old.seat }
        ensures transfer { self.new.transfer ≡ transfer_begun (due self.old.pool) self.old.transfer }
        ensures pool { self.new.pool ≡ pool_begun_by (due self.old.pool) self.old.pool }
    {
        if self.pool.plan.pending() != Pending::Idle {
            return;
        }
        if self.pool.plan.spares() < 2 {
            self.pool.plan.begin(Pending::Taking);
            self.transfer.begin(Wish::Take);
        } else if self.pool.plan.spares() == 3 {
            let head = newest(&self.pool);
            self.pool.plan.begin(Pending::Giving);
            self.pool.heads.pop();
            self.pool.giving = head + 1;
            self.transfer.begin(Wish::Give(head));
        }
    }
}
