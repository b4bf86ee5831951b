// The line of a monitor that was made.
ghost use Rattle.std.specs.Prelude.{Some};
ghost use Rattle.daybook.specs.Lines.{rule_text, monitor_line};

use plantlog::record::RuleChoice;
use std::fmt;

// A restart rule printed by its letter: S for Shiryaev and Roberts, P for Page.
#[derive(Clone, Copy, Debug, PartialEq, Eq)]
pub struct RuleLetter(pub RuleChoice);

impl fmt::Display for RuleLetter {
    ghost output = { λ r. Some (rule_text r.0) };

    fn fmt<W: fmt::Write>(&self, f: &mut fmt::Formatter<W>) -> fmt::Result {
        f.write_str(match self.0 {
            RuleChoice::ShiryaevRoberts => "S",
            RuleChoice::Page => "P",
        })
    }
}

#[derive(Clone, Copy, Debug, PartialEq, Eq)]
pub struct MonitorLine {
    pub classes: usize,
    pub total: u32,
    pub threshold: u32,
    pub rule: RuleChoice,
}

impl fmt::Display for MonitorLine {
    ghost output = { λ m. Some (monitor_line m) };

    fn fmt<W: fmt::Write>(&self, f: &mut fmt::Formatter<W>) -> fmt::Result {
        let MonitorLine {
            classes,
            total,
            threshold,
            rule,
        } = *self;
        let letter = RuleLetter(rule);
        write!(
            f,
            "monitor classes {classes} total {total} threshold {threshold} rule {letter}"
        )
    }
}
