//! The text of `replay` by each loss rule.
use crate::text_samples::{DECIDED_REPORT, PASSED_REPORT, RULED_TRACE, SLID_REPORT};
use loss_rule::LossRule;
use std::test::Fail;
use texts::{replay_lines, replay_lines_by};

/// The rules, each with the report of one trace.
const REPORTS: [(LossRule, &str); 3] = [
    (LossRule::Decided, DECIDED_REPORT),
    (LossRule::Passed, PASSED_REPORT),
    (LossRule::PassedOrSlid, SLID_REPORT),
];

#[test]
fn each_rule_has_its_report(rt: HostRuntime) -> Result<(), Fail> {
    for (rule, report) in REPORTS {
        let input = Vec::from_slice(rt.alloc(), RULED_TRACE.as_bytes())?;
        let text = replay_lines_by(rule, rt.alloc(), input)?;
        assert!(rt; text.as_slice() == report.as_bytes(), "{rule:?}");
    }
    let input = Vec::from_slice(rt.alloc(), RULED_TRACE.as_bytes())?;
    let text = replay_lines(rt.alloc(), input)?;
    assert!(rt; text.as_slice() == DECIDED_REPORT.as_bytes());
    Ok(())
}
