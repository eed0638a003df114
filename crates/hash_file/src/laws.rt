//! Laws of the file: its words, what a search may rely on, and what each change keeps. Each stands
//! on the contract of a function that does nothing.

ghost use Rattle.hash_file.specs.Examples.{AreSound, FreedPageTakenAgain, MergeAndHalving, TwoSplits};
ghost use Rattle.hash_file.specs.Hops.{NoHopMore, OneHopAtMost};
ghost use Rattle.hash_file.specs.Laws.{CopyDirectoryKeeps, LinkFreeKeeps, LowerDepthKeeps, RaiseDepthKeeps, RetargetKeepsMerge, RetargetKeepsSplit, SetCountsKeepsMerge, SetCountsKeepsSplit, TakePageKeeps, WriteFreeKeeps, WriteLeftKeeps, WriteNewKeeps, WriteOldKeeps, WriteRecordIsOneRecord, WriteTombstoneKeeps};
ghost use Rattle.hash_file.specs.Looks.{DrainedHasNoWayIn, EntriesLead, HopsLeadOn, LooksAnswer, OwnedLeadsNowhere, StaleDepthsLead};
ghost use Rattle.hash_file.specs.New.{NewFilesAreSound};
ghost use Rattle.hash_file.specs.Words.{ChainIsMet, ChainIsWellFormed, ContentsArePairs, FilesAreWellFormed, LeadingIsStandingBefore, QuietIsExact, RightPagesLead, RolesAreOne, WaysAreShort};
ghost use Rattle.hash_file.specs.WrongChanges.{WrongChanges};

/// Pages that follow one another from the root as a chain are all that next links
/// lead to from there.
pub fn the_chain_is_what_is_met()
    ensures { ChainIsMet }
{}

/// The live buckets end, ascend in bit-reversed order, and have each pseudokey in the range of
/// exactly one, exactly where their ranges lie side by side.
pub fn a_chain_is_well_formed()
    ensures { ChainIsWellFormed }
{}

/// Each page from the root on is live, or on the free list, or owned by the change: one
/// of these, and once.
pub fn each_page_has_one_role()
    ensures { RolesAreOne }
{}

/// A sound file is well formed: its chain, the one role of each page, the place of each record, and
/// keys of which no two are the same.
pub fn a_sound_file_is_well_formed()
    ensures { FilesAreWellFormed }
{}

/// The chain is no longer than there are pages from the root on, and no way to a bucket has more
/// hops than the chain has buckets.
pub fn no_way_is_longer_than_the_chain()
    ensures { WaysAreShort }
{}

/// The right page of a merge leads, from WriteLeft on, to what is in its own range or behind the
/// left page; from Tombstone on to all that the left page leads to (Ellis 1983).
pub fn the_right_page_leads_on()
    ensures { RightPagesLead }
{}

/// While no change is under way each entry is the bucket of its index, and each count the number of
/// buckets of its depth.
pub fn a_quiet_directory_is_exact()
    ensures { QuietIsExact }
{}

/// A live bucket leads to a pseudokey exactly where the pseudokey's bucket is it, or stands behind
/// it on the chain.
pub fn leading_is_standing_at_or_before()
    ensures { LeadingIsStandingBefore }
{}

/// A page that leads to a pseudokey and does not answer for it names one that leads there too, and
/// is one hop nearer. So a search that stands on a page, be it the one that a merge took off the
/// chain, goes on by next links and tombstones' links alone, and comes to an end (Ellis 1983).
pub fn a_hop_leads_on_and_comes_nearer()
    ensures { HopsLeadOn }
{}

/// A page that leads to the pseudokey of a key and answers for it has of that key
/// what the file holds.
pub fn a_look_answers_what_the_file_holds()
    ensures { LooksAnswer }
{}

/// A page that leads to the low bits of a pseudokey leads to the pseudokey: an entry that was found
/// by a depth that has grown since is good enough.
pub fn a_stale_depth_still_leads()
    ensures { StaleDepthsLead }
{}

/// Each entry of the directory leads to its index, in one hop at most, in each phase
/// of a structure change.
pub fn an_entry_leads_to_its_bucket()
    ensures { EntriesLead }
{}

/// A record that is put, replaced or removed in the bucket of its key is all that changes of
/// what the file holds.
pub fn writing_a_record_changes_one_record()
    ensures { WriteRecordIsOneRecord }
{}

/// TakePage: the first free page is owned by a split that begins. The file stays sound, holds what
/// it held, and each page leads where it led; so with each change below, but where it says more.
pub fn taking_a_page_keeps_the_file()
    ensures { TakePageKeeps }
{}

/// CopyDirectory: one page of the directory gets its part of the upper half.
pub fn copying_the_directory_keeps_the_file()
    ensures { CopyDirectoryKeeps }
{}

/// RaiseDepth: once the upper half is the lower half again the directory is twice as long.
pub fn raising_the_depth_keeps_the_file()
    ensures { RaiseDepthKeeps }
{}

/// Retarget, in a split: on one page of the directory the entries of the upper half come to
/// name the new bucket.
pub fn retargeting_keeps_a_split()
    ensures { RetargetKeepsSplit }
{}

/// SetCounts, in a split: once all entries of the upper half name the new bucket, the change
/// is at its end.
pub fn setting_the_counts_ends_a_split()
    ensures { SetCountsKeepsSplit }
{}

/// Retarget, in a merge: on one page of the directory the entries of the upper half come to
/// name the left bucket.
pub fn retargeting_keeps_a_merge()
    ensures { RetargetKeepsMerge }
{}

/// SetCounts, in a merge: once all entries of the upper half name the left bucket, no
/// entry names the tombstone.
pub fn setting_the_counts_drains_a_merge()
    ensures { SetCountsKeepsMerge }
{}

/// LinkFree: the freed page is the first on the free list, and the change is at its end.
pub fn linking_the_freed_page_ends_a_merge()
    ensures { LinkFreeKeeps }
{}

/// LowerDepth: where no bucket is as deep as the directory, it is half as long.
pub fn lowering_the_depth_keeps_the_file()
    ensures { LowerDepthKeeps }
{}

/// WriteNew: the page that was taken gets the upper half of the old bucket; no link leads to it.
pub fn writing_the_new_bucket_keeps_the_file()
    ensures { WriteNewKeeps }
{}

/// Tombstone: the right page names the left one, and leads wherever that does.
pub fn burying_the_right_page_keeps_the_file()
    ensures { WriteTombstoneKeeps }
{}

/// WriteFree: the right page is free, and alone leads nowhere any more.
pub fn freeing_the_right_page_keeps_the_file()
    ensures { WriteFreeKeeps }
{}

/// WriteOld: the old bucket keeps its lower half, and the new one joins the chain behind it.
pub fn writing_the_old_bucket_keeps_the_file()
    ensures { WriteOldKeeps }
{}

/// WriteLeft: the left of two buddies takes the range and the records of both, and the right one is
/// taken off the chain. It still answers for its own half, and leads on as the left one does.
pub fn writing_the_left_bucket_keeps_the_file()
    ensures { WriteLeftKeeps }
{}

/// No two records of a sound file have one key, and the value at a key is that of its record.
pub fn what_a_file_holds_is_its_pairs()
    ensures { ContentsArePairs }
{}

/// Once a merge is drained no entry and no next link names the right page: whoever does not stand
/// on it comes there no more.
pub fn nothing_leads_to_a_drained_page()
    ensures { DrainedHasNoWayIn }
{}

/// Two splits, of which each doubles the directory: the chain, the records of each bucket, the
/// entries and the counts.
pub fn two_splits_come_out_as_worked_by_hand()
    ensures { TwoSplits }
{}

/// A merge, its tombstone, the freed page and the halved directory.
pub fn a_merge_comes_out_as_worked_by_hand()
    ensures { MergeAndHalving }
{}

/// The next split takes the page that the merge freed.
pub fn a_freed_page_is_taken_again()
    ensures { FreedPageTakenAgain }
{}

/// Each of these files is sound in its phase: so no phase asks for what can't be.
pub fn files_made_by_hand_are_sound()
    ensures { AreSound }
{}

/// For each change one that is wrong, as a split that writes the old bucket first, or a merge that
/// frees a page which an entry still names: none leaves the file sound, or holding what it held.
pub fn wrong_changes_are_refuted()
    ensures { WrongChanges }
{}

/// A way to the bucket of a pseudokey grows by one hop at most where a bucket joins the chain, or a
/// page becomes a tombstone.
pub fn two_changes_lengthen_a_way_by_a_hop()
    ensures { OneHopAtMost }
{}

/// By every other change it does not grow; where a page is freed, from each other page.
pub fn no_other_change_lengthens_a_way()
    ensures { NoHopMore }
{}

/// A file with one bucket, and all other pages free in ascending order, is sound, and holds the
/// records of its bucket.
pub fn a_new_file_is_sound()
    ensures { NewFilesAreSound }
{}

/// The page that a change owns leads nowhere, but for the one that a merge took aside: so no search
/// stands on it, and none comes there.
pub fn an_owned_page_leads_nowhere()
    ensures { OwnedLeadsNowhere }
{}
