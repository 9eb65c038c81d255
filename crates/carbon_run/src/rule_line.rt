//! The line that tells why a rule file is refused.
ghost use Rattle.std.specs.Prelude.{◌≡◌, ◌≤◌, ◌+◌, ◌++◌, length, decimal};
ghost use Rattle.carbon_run.specs.Texts.{carbon_word, cause_text, section_text};
ghost use Rattle.carbon_run.specs.Conf.{rule_file_name};

use crate::conf::{name_of, name_of_agg_rules};
use crate::line::Line;
use aggregate_rules::AggCause;
use schema_rules::{RuleCause, RuleFile};

impl Line {
    ghost use Rattle.std.specs.Prelude.{◌≡◌, ◌≤◌, ◌+◌, ◌++◌, [], length, decimal};
    ghost use Rattle.carbon_run.specs.Conf.{agg_rules_name, rule_file_name};
    ghost use Rattle.carbon_run.specs.Texts.{agg_cause_text, agg_fault_line, carbon_word, cause_text, line_word, rule_fault_line, section_text, section_word, too_long_word};

    /// The line of a refused rule file, by its name and the cause.
    pub(crate) fn of_fault(file: RuleFile, cause: RuleCause) -> Line
        ensures { result ≡ rule_fault_line file cause }
    {
        let mut line = Line::empty();
        line.push_front(file);
        line.push_cause(cause);
        line.push(b"\n");
        line
    }

    /// The line of refused aggregation rules, by the cause.
    pub(crate) fn of_agg_fault(cause: AggCause) -> Line
        ensures { result ≡ agg_fault_line cause }
    {
        let mut line = Line::empty();
        line.push_agg_front();
        line.push_agg_cause(cause);
        line.push(b"\n");
        line
    }

    // What stands before the cause.
    #[tactic(auto, unfolding(crate::specs::Texts::carbon_word))]
    fn push_front(&mut self, file: RuleFile)
        requires { length self.old ≡ 0 }
        ensures text { self.new ≡ self.old ++ (carbon_word ++ rule_file_name file) }
        ensures room { length self.new ≤ 32 }
    {
        self.push(b"carbon: ");
        self.push(name_of(file).as_bytes());
    }

    #[tactic(auto, unfolding(crate::specs::Texts::carbon_word))]
    fn push_agg_front(&mut self)
        requires { length self.old ≡ 0 }
        ensures text { self.new ≡ self.old ++ (carbon_word ++ agg_rules_name) }
        ensures room { length self.new ≤ 32 }
    {
        self.push(b"carbon: ");
        self.push(name_of_agg_rules().as_bytes());
    }

    #[tactic(auto, unfolding(crate::specs::Texts::agg_cause_text))]
    fn push_agg_cause(&mut self, cause: AggCause)
        requires { length self.old ≤ 32 }
        ensures text { self.new ≡ self.old ++ agg_cause_text cause }
        ensures room { length self.new ≤ 90 }
    {
        match cause {
            AggCause::TooLong => self.push_too_long(),
            AggCause::Line(number) => self.push_line_number(number),
        }
    }

    #[tactic(auto, unfolding(crate::specs::Texts::cause_text, crate::specs::Texts::bad_pattern, crate::specs::Texts::bad_retentions, crate::specs::Texts::bad_layout, crate::specs::Texts::bad_factor, crate::specs::Texts::bad_method))]
    fn push_cause(&mut self, cause: RuleCause)
        requires { length self.old ≤ 32 }
        ensures text { self.new ≡ self.old ++ cause_text cause }
        ensures room { length self.new ≤ 90 }
    {
        match cause {
            RuleCause::TooLong => self.push_too_long(),
            RuleCause::Line(number) => self.push_line_number(number),
            RuleCause::BadPattern(number) => self.push_section(number, b"bad pattern"),
            RuleCause::BadRetention(number) => self.push_section(number, b"bad retentions"),
            RuleCause::BadLayout(number, _) => self.push_section(number, b"bad layout"),
            RuleCause::BadFactor(number) => self.push_section(number, b"bad xFilesFactor"),
            RuleCause::BadMethod(number) => self.push_section(number, b"bad aggregationMethod"),
        }
    }

    #[tactic(auto, unfolding(crate::specs::Texts::too_long_word))]
    fn push_too_long(&mut self)
        requires { length self.old ≤ 32 }
        ensures text { self.new ≡ self.old ++ too_long_word }
        ensures room { length self.new ≤ 90 }
    {
        self.push(b" too long");
    }

    #[tactic(auto, unfolding(crate::specs::Texts::line_word))]
    fn push_line_number(&mut self, number: u32)
        requires { length self.old ≤ 32 }
        ensures text { self.new ≡ self.old ++ (line_word ++ decimal number) }
        ensures room { length self.new ≤ 90 }
    {
        self.push(b" line ");
        self.push_number(u64::from(number));
    }

    fn push_section(&mut self, number: u32, what: &[u8])
        requires front { length self.old ≤ 32 }
        requires what { length what.now ≤ 21 }
        ensures text { self.new ≡ self.old ++ section_text number what.now }
        ensures room { length self.new ≤ 90 }
    {
        self.push_section_word();
        self.push_number(u64::from(number));
        self.push(b": ");
        self.push(what);
    }

    #[tactic(auto, unfolding(crate::specs::Texts::section_word))]
    fn push_section_word(&mut self)
        requires { length self.old ≤ 32 }
        ensures text { self.new ≡ self.old ++ section_word }
        ensures room { length self.new ≤ 41 }
    {
        self.push(b" section ");
    }
}
