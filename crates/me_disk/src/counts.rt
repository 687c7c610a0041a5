// Counts that stay at their last value.
ghost use Rattle.std.specs.Prelude.{◌≡◌, ◌≤◌};
ghost use Rattle.me_disk.specs.Causes.{one_more, Rose};

/// Counts a fault, up to the last value of the count, and is that fault.
pub fn count_fault<F: Copy + Drop>(faults: &mut u64, fault: F) -> F
    ensures value { result ≡ fault }
    ensures counted { faults.new ≡ one_more faults.old }
    ensures rose { Rose faults.old faults.new }
    ensures later { faults.old ≤ faults.new }
{
    *faults = faults.saturating_add(1);
    fault
}
