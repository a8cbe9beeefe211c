//! What code that takes the recorder's turns stands on (docs/recorder.md): laws of turns. The functions have no
//! bodies: they promise the laws.
#![tactic(auto)]

ghost use Rattle.turn_laws.specs.EndLaws.{BoardsAreInRange, FaultIsAtConsole, FullIsFull, ListsAreInRange};
ghost use Rattle.turn_laws.specs.EndLaws.{ListsTell, RoundsAreInRange, RoundsTell};
ghost use Rattle.turn_laws.specs.Laws.{ClaimsAreOne, ClashesAreOne, ClosesExtend, ClosesLead, HartsAllCome};
ghost use Rattle.turn_laws.specs.Laws.{HartsComeOnce, HoldsAreOne, LastLegsAtOnce, LastTurnsExtend, LastTurnsGoOn};
ghost use Rattle.turn_laws.specs.Laws.{LastTurnsLead, LegsAre, LegsAreShort, LegsAtOnce, LegsEndSooner, LegsStay};
ghost use Rattle.turn_laws.specs.Laws.{ListsAreCut, ListsExtend, ListsGoOn, ListsLead, MovesAreOfLegs, MovesKeep};
ghost use Rattle.turn_laws.specs.Laws.{MovesLeaveOthers, NeedsAreOne, PollsBegin, PollsGrow, PollsStay, PollsTell};
ghost use Rattle.turn_laws.specs.Laws.{ReachedAreCrew, ReachedArePolled, ReachedExtend, RecordingsExtend};
ghost use Rattle.turn_laws.specs.Laws.{RecordingsInRoundsExtend, RoundExtends, RoundsAreNotCut, RoundsAreOne};
ghost use Rattle.turn_laws.specs.Laws.{RoundsBeginStill, RoundsExtend, RoundsLead, RunsStay, SizesBegin, SizesGrow};
ghost use Rattle.turn_laws.specs.Laws.{SizesStay, StepsExtend, StepsGoOn, SuppliesAreJoined, SweepsExtend};
ghost use Rattle.turn_laws.specs.Laws.{SweepsGoOn, SweepsLead, TurnsAreShort, TurnsClose, TurnsExtend, WaitsBegin};
ghost use Rattle.turn_laws.specs.Laws.{WaitsFollow, WaitsStay, WaitsTell};

/// What console and clock give after a turn changes nothing of it; so code can know their answers as they come.
pub fn turns_extend()
    ensures turn { TurnsExtend }
    ensures list { ListsExtend }
    ensures close { ClosesExtend }
    ensures sweep { SweepsExtend }
    ensures round { RoundExtends }
    ensures rounds { RoundsExtend }
    ensures last { LastTurnsExtend }
    ensures recorded { RecordingsExtend }
    ensures recorded_in_rounds { RecordingsInRoundsExtend }
    ensures go_on { ListsGoOn }
    ensures sweeps_go_on { SweepsGoOn }
    ensures last_go_on { LastTurnsGoOn }
    ensures joined { SuppliesAreJoined }
    ensures steps { StepsExtend }
    ensures steps_go_on { StepsGoOn }
{}

/// From boards that turns lead to, turns lead to such boards.
pub fn turns_lead()
    ensures list { ListsLead }
    ensures close { ClosesLead }
    ensures sweep { SweepsLead }
    ensures rounds { RoundsLead }
    ensures last { LastTurnsLead }
    ensures extend { ReachedExtend }
{}

/// A turn of one hart leaves what another hart sees, and so the leg that it has ahead.
pub fn legs_stay()
    ensures crew { ReachedAreCrew }
    ensures runs { RunsStay }
    ensures legs { LegsStay }
    ensures are { LegsAre }
    ensures moves { MovesAreOfLegs }
    ensures sooner { LegsEndSooner }
    ensures others { MovesLeaveOthers }
    ensures at_once { LegsAtOnce }
    ensures last_at_once { LastLegsAtOnce }
{}

/// A turn closes a board by stop, a full log or a console that fails; so only a list that ends first is cut.
pub fn causes_are_exact()
    ensures turn { TurnsClose }
    ensures list { ListsAreCut }
    ensures rounds { RoundsAreNotCut }
{}

/// Of one board, and of what console and clock have to give, there is one recording in rounds.
pub fn rounds_are_one()
    ensures { RoundsAreOne }
{}

/// A round comes to each hart once, and the first one finds no leg.
pub fn rounds_go_round()
    ensures once { HartsComeOnce }
    ensures all { HartsAllCome }
    ensures first { RoundsBeginStill }
{}

/// The size of the log is a running number: the frame's, and each entry's.
pub fn sizes_grow()
    ensures grow { SizesGrow }
    ensures begin { SizesBegin }
    ensures stay { SizesStay }
{}

/// The Polls of a stream are one number: the least count at which one is due that has none.
pub fn polls_grow()
    ensures begin { PollsBegin }
    ensures grow { PollsGrow }
    ensures stay { PollsStay }
    ensures tell { PollsTell }
    ensures reached { ReachedArePolled }
{}

/// The Yields of a page since its latest Gain, kept entry by entry, are what a Gain waits for.
pub fn waits_follow()
    ensures begin { WaitsBegin }
    ensures follow { WaitsFollow }
    ensures stay { WaitsStay }
    ensures tell { WaitsTell }
    ensures moves { MovesKeep }
{}

/// What the board says of holders and needs is what a directory and a hart's run say of them.
pub fn holders_are_one()
    ensures clash { ClashesAreOne }
    ensures holds { HoldsAreOne }
    ensures needs { NeedsAreOne }
    ensures claims { ClaimsAreOne }
{}

/// A leg ends at the next Poll, and a turn makes at most three entries more than there are harts.
pub fn turns_are_short()
    ensures legs { LegsAreShort }
    ensures turns { TurnsAreShort }
{}

/// A full log has no room for the greatest entry, and a fault leaves a hart at the console for good.
pub fn causes_tell()
    ensures full { FullIsFull }
    ensures fault { FaultIsAtConsole }
    ensures list { ListsTell }
    ensures rounds { RoundsTell }
{}

/// Each log that is recorded can be written.
pub fn logs_are_in_range()
    ensures board { BoardsAreInRange }
    ensures list { ListsAreInRange }
    ensures rounds { RoundsAreInRange }
{}
