//! Planned faults, counts of faults, and texts side by side.
use std::test::Fail;
use zbase::{Failed, FaultCount, FaultPlan, Text};

#[test]
fn the_calls_of_the_plan_fail_and_no_other(rt: HostRuntime) -> Result<(), Fail> {
    let mut plan = FaultPlan::new(Vec::from_slice(rt.alloc(), &[4, 2])?);
    for failing in [false, true, false, true, false] {
        assert_eq!(rt; plan.call().is_err(), failing);
    }
    Ok(())
}

#[test]
fn faults_are_told(rt: HostRuntime) {
    let mut faults = FaultCount::default();
    for _ in 0..2 {
        assert_eq!(rt; faults.fault(), Failed);
    }
}

#[test]
fn texts_are_compared(rt: HostRuntime) -> Result<(), Fail> {
    let text = Text::from_str(rt.alloc(), "Zopé")?;
    for (other, is_same) in [("Zopé", true), ("Zope", false), ("", false)] {
        let other = Text::from_str(rt.alloc(), other)?;
        assert_eq!(rt; text.same(&other), is_same);
    }
    Ok(())
}
