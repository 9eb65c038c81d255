//! Laws of what a server's history tells of its links.
ghost use Rattle.std.specs.Prelude.{ℕ, List, [], Option};
ghost use Rattle.aggregate_rules.specs.RuleTexts.{RuleValue};
ghost use Rattle.carbon_history.specs.declared.entry.Entry.{Entry};
ghost use Rattle.carbon_history.specs.Entries.{of_pass};
ghost use Rattle.carbon_model.specs.State.{State};
ghost use Rattle.outside_io.specs.Image.{Image};
ghost use Rattle.http_front.specs.Origin.{caller_of, origin_of};
ghost use Rattle.shared_store.specs.declared.drain_end.DrainEnd.{DrainEnd};
ghost use Rattle.carbon_serve.specs.Courses.{CourseOf, staff_of};
ghost use Rattle.carbon_serve.specs.Deeds.{HttpLink, InTurn, LineLink, ServesHttpLink, ServesLineLink, telling};
ghost use Rattle.carbon_serve.specs.Headline.{IsOneHistory, from_nothing};
ghost use Rattle.carbon_serve.specs.OneHistory.{PutsOfAll, RepliesOfAll};
ghost use Rattle.carbon_serve.specs.Serves.{Serves};
ghost use Rattle.carbon_serve.specs.declared.crew.Duties.{Duties};

use outside_io::{Clock, Disk, Net};
use shared_store::Named;

/// The headline. All puts, drains and questions of a server stand in one order, which is legal. Each
/// entry is of one of its passes, and what is of each is just what its links, or its drains, made:
/// one put for each accepted line, and the questions of the replies, each of which is the one that
/// carbon gives where one thread does all that stands before the question, in which is all that the
/// worker had seen. The function does nothing: what it ensures is the law.
pub fn a_server_has_one_history<C: Clock, D: Disk, E: Net>()
    ensures { (clock : C) (rules : List RuleValue) (duties : Duties) (passes : ℕ)
        (told : ℕ → Option Image) (start : State) (earlier : ℕ → ℕ) (end : DrainEnd)
        (history : List Entry) (disks : List D)
        → Serves D.Disk (staff_of C.Clock E.L.Source E.L.Sink clock rules duties passes)
        told start earlier end history disks
        → IsOneHistory (staff_of C.Clock E.L.Source E.L.Sink clock rules duties passes)
        told start history }
{}

/// All that a renderer wrote to its links is of the one history: each request has questions of its
/// own in it, in the order of the requests, and is answered by the state behind the last of them,
/// before which stands all that the renderer had seen. The function does nothing: what it ensures is
/// the law.
pub fn every_reply_is_of_the_one_history<C: Clock, N: Named, E: Net>()
    ensures { (clock : C) (rules : List RuleValue) (duties : Duties) (number : ℕ)
        (history : List Entry)
        (course : CourseOf (telling E.L.Source E.L.Sink rules) (origin_of C.Clock N.Named clock)
        duties number history) (served : List (HttpLink E.L)) (told : List ℕ)
        → InTurn (ServesHttpLink (telling E.L.Source E.L.Sink rules)
        (origin_of C.Clock N.Named clock)) served (caller_of course.fresh [])
        (caller_of course.pass told)
        → RepliesOfAll (telling E.L.Source E.L.Sink rules) (origin_of C.Clock N.Named clock)
        number history served (from_nothing (of_pass number history) course.pass.seen) }
{}

/// What the history has of a receiver are the puts of its links, link by link and line by line, and
/// nothing else: one for each line that was read as a point, and right behind it one for each point
/// that the rules emit for it. Of a link that was read to its end they are followed by one for each
/// point that the rules have open then; of one that a failed read or its limit ended they are not.
/// Where the pass was spent or memory ran out they are the first of these: none of what is open,
/// unless the link was read to its end and all its lines were handled. The function does nothing:
/// what it ensures is the law.
pub fn every_point_is_put_once<C: Clock, N: Named, E: Net>()
    ensures { (clock : C) (rules : List RuleValue) (duties : Duties) (number : ℕ)
        (history : List Entry)
        (course : CourseOf (telling E.L.Source E.L.Sink rules) (origin_of C.Clock N.Named clock)
        duties number history) (served : List (LineLink E.L)) (told : List ℕ)
        → InTurn (ServesLineLink (telling E.L.Source E.L.Sink rules)
        (origin_of C.Clock N.Named clock)) served (caller_of course.fresh [])
        (caller_of course.pass told)
        → PutsOfAll (telling E.L.Source E.L.Sink rules) (origin_of C.Clock N.Named clock) number
        served (of_pass number history) }
{}
