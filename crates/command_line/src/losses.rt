//! The option `--losses` of `replay`, `run` and `follow`: the rule by which losses are decided.
ghost use Rattle.std.specs.Prelude.{◌≡◌, ◌↔◌, map};
ghost use Rattle.loss_rule.specs.declared.rule.LossRule.{LossRule};
ghost use Rattle.command_line.specs.Losses.{rule_name, AskForRule, AskForRuleAlone};

use crate::option_words::{only_value, value_within};
use loss_rule::LossRule;
use std::convert::AsStr;

/// The rule of this name, if there is one: `decided`, `passed` or `slid`.
pub fn rule_named(name: &str) -> Option<LossRule>
    ensures { (rule : LossRule) → (result ≡ Some rule) ↔ (name.now ≡ rule_name rule) }
{
    match name {
        "decided" => Some(LossRule::Decided),
        "passed" => Some(LossRule::Passed),
        "slid" => Some(LossRule::PassedOrSlid),
        _ => None,
    }
}

/// The rule that options ask for, `Decided` where they ask for none. Two `--losses` ask for no
/// rule.
pub fn asked_rule<S: AsStr>(options: &[S]) -> Option<LossRule>
    ensures { (rule : LossRule)
        → (result ≡ Some rule) ↔ AskForRule rule (map S.text options.now) }
{
    match only_value(options, "--losses") {
        Ok(None) => Some(LossRule::Decided),
        Ok(Some(name)) => rule_named(name),
        Err(_) => None,
    }
}

/// The rule that options ask for which ask for nothing else, `Decided` where there are none.
pub fn asked_rule_alone<S: AsStr>(options: &[S]) -> Option<LossRule>
    ensures { (rule : LossRule)
        → (result ≡ Some rule) ↔ AskForRuleAlone rule (map S.text options.now) }
{
    match options {
        [] => Some(LossRule::Decided),
        [option] => rule_named(value_within(option.as_str(), "--losses")?),
        [option, name] if option.as_str() == "--losses" => rule_named(name.as_str()),
        _ => None,
    }
}
