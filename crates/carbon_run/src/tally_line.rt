//! The line that a server ends with.
ghost use Rattle.std.specs.Prelude.{◌≡◌, ◌≤◌, ◌+◌, ◌++◌, length, decimal};
ghost use Rattle.carbon_run.specs.Texts.{counted, drains_word, full_word, replaced_word, stored_word, tally_line};

use crate::line::Line;
use shared_store::Tally;

impl Line {
    ghost use Rattle.std.specs.Prelude.{◌≡◌, ◌≤◌, ◌+◌, ◌++◌, [], length, decimal};
    ghost use Rattle.carbon_run.specs.Texts.{counted, drains_word, full_word, replaced_word, stored_word, tally_line};

    /// The line of these counts.
    pub(crate) fn of_tally(tally: &Tally) -> Line
        ensures { result ≡ tally_line tally.now }
    {
        let mut line = Line::empty();
        line.push_stored(tally.stored);
        line.push_replaced(tally.replaced);
        line.push_full(tally.full);
        line.push_drains(tally.drains);
        line.push(b"\n");
        line
    }

    // A word and a count more.
    fn push_count(&mut self, word: &[u8], count: u64)
        requires word { length word.now ≤ 10 }
        requires room { length self.old ≤ 90 }
        ensures text { self.new ≡ self.old ++ counted word.now count }
        ensures room { length self.new ≤ length self.old + length word.now + 20 }
    {
        self.push(word);
        self.push_number(count);
    }

    #[tactic(auto, unfolding(crate::specs::Texts::stored_word))]
    fn push_stored(&mut self, count: u64)
        requires { length self.old ≡ 0 }
        ensures text { self.new ≡ self.old ++ counted stored_word count }
        ensures room { length self.new ≤ 27 }
    {
        self.push_count(b"stored ", count);
    }

    #[tactic(auto, unfolding(crate::specs::Texts::replaced_word))]
    fn push_replaced(&mut self, count: u64)
        requires { length self.old ≤ 27 }
        ensures text { self.new ≡ self.old ++ counted replaced_word count }
        ensures room { length self.new ≤ 57 }
    {
        self.push_count(b" replaced ", count);
    }

    #[tactic(auto, unfolding(crate::specs::Texts::full_word))]
    fn push_full(&mut self, count: u64)
        requires { length self.old ≤ 57 }
        ensures text { self.new ≡ self.old ++ counted full_word count }
        ensures room { length self.new ≤ 83 }
    {
        self.push_count(b" full ", count);
    }

    #[tactic(auto, unfolding(crate::specs::Texts::drains_word))]
    fn push_drains(&mut self, count: u64)
        requires { length self.old ≤ 83 }
        ensures text { self.new ≡ self.old ++ counted drains_word count }
        ensures room { length self.new ≤ 111 }
    {
        self.push_count(b" drains ", count);
    }
}
