//! What the rule says, part by part, of any state that meets it. These functions do nothing: what
//! each one ensures is a law.
ghost use Rattle.atomic_table.specs.Table.{State};
ghost use Rattle.carbon_history.specs.declared.entry.Entry.{Entry as EntryValue};
ghost use Rattle.shared_history.specs.declared.view.View.{View as ViewValue};
ghost use Rattle.shared_history.specs.Laws.{AllBegin, LooksBehind, LooksOfMade, OneOrder, OneTail, PassesCount};
ghost use Rattle.shared_history.specs.Rule.{Kept, whole};

/// The first word counts the history, and just one seat may append to it.
pub fn one_seat_appends()
    ensures { (s : State EntryValue ViewValue) (k : Kept s) → OneOrder s (whole k.book) }
{}

/// Each class has just one seat, with the entries about it, which the class's word counts.
pub fn one_seat_has_a_class()
    ensures { (s : State EntryValue ViewValue) (k : Kept s)
        → OneTail s (whole k.book) k.book.classes }
{}

/// All that was seen begins the history.
pub fn what_is_seen_begins_the_history()
    ensures { (s : State EntryValue ViewValue) (k : Kept s) → AllBegin s (whole k.book) }
{}

/// Looks at a class are behind the class.
pub fn looks_are_behind_their_class()
    ensures { (s : State EntryValue ViewValue) (k : Kept s) → LooksBehind s }
{}

/// A look at a class that was not made has found nothing.
pub fn looks_are_of_classes_that_were_made()
    ensures { (s : State EntryValue ViewValue) (k : Kept s) → LooksOfMade s k.book.classes }
{}

/// Each pass has just one seat and has seen its own entries, and each entry is of a pass that was
/// made.
pub fn each_entry_is_of_a_pass()
    ensures { (s : State EntryValue ViewValue) (k : Kept s)
        → PassesCount s (whole k.book) k.book.passes k.book.classes }
{}
