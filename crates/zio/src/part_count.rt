ghost use Rattle.std.specs.Prelude.{◌≡◌, IsErr, false, true};
ghost use Rattle.zbase.specs.Faults.{Counter, Counts, no_arms};
ghost use Rattle.zio.specs.PartCounts.{IsBacked};

use std::marker::Model;
use zbase::{Failed, FaultPlan};

/// How often some of an object's calls have failed, where a plan counts all of its calls; it counts none itself.
#[derive(Drop)]
pub struct PartCount {
    faults: u64,
    sound: bool,
}

impl Model for PartCount {
    ghost Value = { Counter };

    ghost view = { λ part. record { count = part.faults; sound = part.sound; calls = 0; arms = no_arms } };
}

impl PartCount {
    /// None so far, of calls that may fail.
    pub fn new() -> PartCount
        ensures { result ≡ record { count = 0; sound = false; calls = 0; arms = no_arms } }
    {
        PartCount {
            faults: 0,
            sound: false,
        }
    }

    /// None so far, of calls that can't fail.
    pub fn faultless() -> PartCount
        ensures { result ≡ record { count = 0; sound = true; calls = 0; arms = no_arms } }
    {
        PartCount {
            faults: 0,
            sound: true,
        }
    }

    /// Counts a call, which fails where the plan says so.
    pub fn call(&mut self, plan: &mut FaultPlan) -> Result<(), Failed>
        requires backed { IsBacked self.old plan.old }
        ensures part { Counts self.old self.new (IsErr result) }
        ensures plan { Counts plan.old plan.new (IsErr result) }
        ensures backed { IsBacked self.new plan.new }
    {
        let result = plan.call();
        if result.is_err() {
            self.faults = self.faults.saturating_add(1);
        }
        result
    }
}
