//! Which calls of an object in memory fail.

ghost use Rattle.std.specs.Prelude.{◌≡◌};
ghost use Rattle.mj_links.specs.Memory.{IsNewPlan, CountsCall, has_next, next_fails};

/// Calls are counted from 1, and a call fails whose number is in the list.
#[derive(Drop)]
pub(crate) struct Plan {
    failing: Vec<u64>,
    made: u64,
}

impl Plan {
    pub(crate) fn new(failing: Vec<u64>) -> Plan
        ensures { IsNewPlan result failing.items }
    {
        Plan { failing, made: 0 }
    }

    /// Counts a call, and says whether it fails.
    pub(crate) fn next_fails(&mut self) -> bool
        ensures fails { result ≡ next_fails self.old }
        ensures counted { CountsCall self.old self.new }
    {
        let fails = is_next(&self.failing, self.made);
        self.made = self.made.saturating_add(1);
        fails
    }
}

// No list has a number past 2^64 - 1.
fn is_next(numbers: &[u64], made: u64) -> bool
    ensures { result ≡ has_next numbers.now made }
{
    match made.checked_add(1) {
        Some(number) => numbers.contains(&number),
        None => false,
    }
}
