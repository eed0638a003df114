//! The laws of steps. Each stands on the contract of a function that does nothing.

ghost use Rattle.step_rules.specs.declared.kind.Kind.{Kind};
ghost use Rattle.step_rules.specs.Falls.{CopiesOn, RetargetsOn, SearchesFall, SplitDeepens, StepFalls};
ghost use Rattle.step_rules.specs.OnePage.{KindChangesLittle};
ghost use Rattle.step_rules.specs.Rooms.{NoPageIsFree, NoRoomIsSeen, NoRoomIsStuck, TurnedAwayIsStuck};
ghost use Rattle.step_rules.specs.Walking.{OwnStepsWalk, OthersStepsWalk};
ghost use Rattle.step_rules.specs.Walks.{SearchesGoOn, SearchHopsLittle};
ghost use Rattle.step_rules.specs.Ways.{KindLengthens, SchedulesLengthen, DepthIsExact, KindParts, EntryIsNear, HopIsNearer};
ghost use Rattle.step_rules.specs.Laws.{OthersKnow, KindKeeps, TurnKeeps, TurnIsOfItsKind, KindKeepsContents, WriteChangesOneRecord, SchedulesKeepSound, SchedulesKeepKnowledge, RestIsSound, RestIsQuiet};

/// What a seat knows is still so after a step of another seat, by what that step leaves.
pub fn others_keep_what_they_know()
    ensures { OthersKnow }
{}

/// A step of any kind keeps the world sound, and leaves the others what they know; so does one that
/// is tied to its turn.
pub fn each_kind_leaves_what_others_know()
    ensures kinds { (kind : Kind) → KindKeeps kind }
    ensures turns { (kind : Kind) → TurnKeeps kind }
    ensures tied { (kind : Kind) → TurnIsOfItsKind kind }
{}

/// A step changes what the file holds only where it writes a record, and then that one record.
pub fn only_a_written_record_changes_what_the_file_holds()
    ensures others { (kind : Kind) → KindKeepsContents kind }
    ensures written { WriteChangesOneRecord }
{}

/// However the steps of seats fall between one another, the world stays sound, and a seat that
/// stands still knows what it knew.
pub fn every_schedule_keeps_what_is_known()
    ensures sound { SchedulesKeepSound }
    ensures known { SchedulesKeepKnowledge }
{}

/// Another seat's way to a bucket grows by a hop at most at a WriteOld and a Tombstone, and by none
/// at any other step. So in every schedule a seat that stands on a page has as many hops more to
/// make, at most, as there were such steps.
pub fn two_kinds_lengthen_a_way_by_a_hop()
    ensures step { (kind : Kind) → KindLengthens kind }
    ensures schedule { SchedulesLengthen }
{}

/// The walk of a search to the bucket of its pseudokey stays on its way at each step of its own
/// and of the others, one law a step. On its way it has made at most one hop more than there
/// were WriteOld and Tombstone steps of other seats since it was granted the directory, and
/// none where no change was under way in all that time. For by the depth that it read no bucket
/// is on the way, the entry is late by one at most, each such step adds one at most, and each
/// hop comes one nearer.
pub fn a_search_hops_once_more_at_most()
    ensures walk { SearchesGoOn }
    ensures few { SearchHopsLittle }
    ensures depth { DepthIsExact }
    ensures parts { (kind : Kind) → KindParts kind }
    ensures entry { EntryIsNear }
    ensures hop { HopIsNearer }
{}

/// How far a search has come is told by what its seat knows: by each step of its own it begins, or
/// goes on, or counts a hop to another page; and a step of another seat adds to its walk what its
/// kind may add. So who counts the hops of a seat need not see into its calls.
pub fn a_search_is_told_by_what_its_seat_knows<F>()
    ensures own { OwnStepsWalk F }
    ensures others { OthersStepsWalk }
{}

/// Each own step of a search lowers the most that it has left. Each step that goes on with a split
/// or a merge comes to a later phase, or one directory page further in their order; a doubling and
/// a halving bring the depth nearer to its end; and each split makes its bucket deeper.
pub fn own_steps_bring_the_end_nearer()
    ensures searches { SearchesFall }
    ensures steps { (kind : Kind) → StepFalls kind }
    ensures copies { CopiesOn }
    ensures retargets { RetargetsOn }
    ensures splits { SplitDeepens }
{}

/// Where a record has no room it can't be put, and no split begins that makes room for it; a seat
/// sees it by what it knows of its page and the directory. Where the list of free pages is empty
/// each page is live or owned by a change.
pub fn no_room_is_neither_put_nor_split()
    ensures seen { NoRoomIsSeen }
    ensures stuck { NoRoomIsStuck }
    ensures free { NoPageIsFree }
{}

/// Where a Delete may turn away from its merge no merge can be made.
pub fn a_merge_that_is_turned_away_from_can_not_be_made()
    ensures { TurnedAwayIsStuck }
{}

/// Where no seat holds a lock the world is sound exactly where the file is, with no change
/// under way. So schedules may begin at a sound file, and leave one where every seat has
/// given its locks back.
pub fn a_world_at_rest_is_a_quiet_file()
    ensures sound { RestIsSound }
    ensures quiet { RestIsQuiet }
{}

/// A step changes the one page that its kind names, or none, and no other; and it changes what its
/// seat holds of one name at most, or for a hop exchanges one page for the next.
pub fn a_step_changes_one_page_and_one_lock_at_most()
    ensures { (kind : Kind) → KindChangesLittle kind }
{}
