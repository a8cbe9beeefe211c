//! The order rules: which logs are orderly, as tests over the places of a log (docs/order-rules.md).
//! The functions have no body: each promises a law of these definitions.
#![tactic(auto)]

ghost use Rattle.order_rules.specs.Worked.{AreJudged};
ghost use Rattle.order_rules.specs.Laws.{ReportsAreOne, FirstIsLeast, NumbersName, CrewBefore, LeastTakesAll, StillFollow, FollowIsCrew};

/// The rules judge logs that were worked out by hand as they should.
pub fn worked_logs()
    ensures { AreJudged }
{}

/// An orderly log has no report, and another has one at most.
pub fn reports_are_one()
    ensures { ReportsAreOne }
{}

/// The first spot that passes a test is the least hart and place that do.
pub fn first_is_least()
    ensures { FirstIsLeast }
{}

/// An entry of a page is the one that its number names.
pub fn numbers_name()
    ensures { NumbersName }
{}

/// Before each number of a page no two harts hold it in conflict.
pub fn crew_before()
    ensures { CrewBefore }
{}

/// Where some order takes all entries, the least order does.
pub fn least_takes_all()
    ensures { LeastTakesAll }
{}

/// A table of holders that is what a log's entries so far leave stays so as further entries are taken.
pub fn holders_follow()
    ensures follow { StillFollow }
    ensures crew { FollowIsCrew }
{}
