//! Tests to be run with the Nth request for memory refused. Each says `refused` when a call was.
use frame_comparison::Side::{Analyser, Here};
use frame_comparison::{ComparedCounts, FrameComparison};
use std::alloc::{AllocError, Global};
use std::process::Abort;
use std::test::Fail;

/// What is counted of two flows of which all was taken.
const COUNTS: [ComparedCounts; 2] = [
    ComparedCounts {
        both: 4,
        only_analyser: 2,
        only_here: 0,
    },
    ComparedCounts {
        both: 0,
        only_analyser: 0,
        only_here: 6,
    },
];

/// Takes frames of which some are equal, and some are given up.
fn take_all(alloc: Global, comparison: &mut FrameComparison) {
    for number in 0..6u16 {
        let frame = number.to_be_bytes();
        comparison.take(alloc, Analyser, 0, 1, &frame, &[1, 2]);
        if number % 3 != 1 {
            comparison.take(alloc, Here, 0, 2, &frame, &[]);
        }
        comparison.take(alloc, Here, 1, 3, &frame, &[]);
    }
}

/// A comparison of two flows of which all was taken.
fn all_taken(alloc: Global) -> Result<FrameComparison, AllocError> {
    let mut comparison = FrameComparison::new(alloc, 2)?;
    take_all(alloc, &mut comparison);
    Ok(comparison)
}

/// A comparison that isn't whole counts nothing more, and stays so.
fn expect_stays(rt: &(impl Abort + AllocGlobal), comparison: FrameComparison) -> Result<(), Fail> {
    let mut comparison = comparison;
    let counts = comparison.counts().to_vec(rt.alloc())?;
    take_all(rt.alloc(), &mut comparison);
    comparison.finish(rt.alloc());
    assert!(rt; !comparison.is_whole());
    assert!(rt; comparison.counts() == counts.as_slice());
    Ok(())
}

/// A comparison for which memory failed says so, and takes nothing more.
#[test]
fn comparison_refused(rt: HostRuntime) -> Result<(), Fail> {
    let mut comparison = match all_taken(rt.alloc()) {
        Ok(comparison) => comparison,
        Err(AllocError) => {
            println!(rt; "refused")?;
            all_taken(rt.alloc())?
        }
    };
    if !comparison.is_whole() {
        println!(rt; "refused")?;
        expect_stays(&rt, comparison)?;
        comparison = all_taken(rt.alloc())?;
    }
    comparison.finish(rt.alloc());
    assert!(rt; comparison.is_whole());
    assert!(rt; comparison.counts() == COUNTS.as_slice());
    Ok(())
}
