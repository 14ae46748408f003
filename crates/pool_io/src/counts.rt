// Counts of calls and of faults.
ghost use Rattle.std.specs.Prelude.{◌≡◌, ◌≤◌, ◌↔◌, IsTrue, Contains};
ghost use Rattle.pool_io.specs.Counts.{one_more, NoneFrom};

/// One more, but a count at its last value stays there.
pub(crate) fn raise(count: &mut u64)
    ensures raised { count.new ≡ one_more count.old }
    ensures never_falls { count.old ≤ count.new }
{
    *count = count.saturating_add(1);
}

/// Counts a call, and answers whether it's one of those that are to fail.
pub(crate) fn count_call(calls: &mut u64, failing: &[u64]) -> bool
    ensures counted { calls.new ≡ one_more calls.old }
    ensures fails { IsTrue result ↔ Contains failing.now calls.old }
    ensures none { NoneFrom failing.now calls.old → NoneFrom failing.now calls.new }
{
    let call = *calls;
    raise(calls);
    failing.contains(&call)
}
