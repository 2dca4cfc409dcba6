//! Failures that are told beforehand.

ghost use Rattle.std.specs.Prelude.{◌≡◌};
ghost use Rattle.fund_shelf.specs.Failures.{FailurePlan, is_due, after_call};

use std::marker::Model;

/// Which calls of one method are to fail, by their numbers from 0, and how many calls were made; at
/// the greatest `u64` that number stays.
#[derive(Drop)]
pub struct Failures {
    numbers: Vec<u64>,
    next: u64,
}

impl Model for Failures {
    ghost Value = { FailurePlan };

    ghost view = { λ f. record { numbers = f.numbers.items; next = f.next } };
}

impl Failures {
    /// These calls are to fail, and none was made yet.
    pub fn new(numbers: Vec<u64>) -> Failures
        ensures { result ≡ record { numbers = numbers.items; next = 0 } }
    {
        Failures { numbers, next: 0 }
    }

    /// Counts a call, and answers whether it is to fail.
    pub fn strike(&mut self) -> bool
        ensures due { result ≡ is_due self.old }
        ensures counted { self.new ≡ after_call self.old }
    {
        let due = self.numbers.contains(&self.next);
        self.next = self.next.saturating_add(1);
        due
    }
}
