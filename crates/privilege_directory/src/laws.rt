//! The directory along a log. The function has no body: it promises the laws.

ghost use Rattle.privilege_directory.specs.Laws.{AlongOrders, GivesEntries, AllowsEntries};

/// From a directory's start, as harts take the Gains and Yields of a log one by one: where the log keeps O5, the
/// directory has the next number of each page, its holders, and the Yields that a next Gain has to wait for; where it
/// keeps O7 too, each entry is what its call gives; where it keeps O6, a Gain is allowed, and a Yield leaves less than
/// is held.
pub fn waits_follow()
    ensures along { AlongOrders }
    ensures given { GivesEntries }
    ensures allowed { AllowsEntries }
{}
