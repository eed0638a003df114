//! What a seat learns by a step of its own. Each law stands on the contract of a
//! function that does nothing.

ghost use Rattle.step_rules.specs.Answering.{LookMayTell};
ghost use Rattle.step_rules.specs.Learns.{DirectoryIsHalved, LookTells, OwnedAnswerIsLive, BuddyIsOtherHalf, OwnLocksKeep, OwnGrantKeeps, FreesNobodysPage, LinksNobodysPage};

/// A look at a page that leads to a key's pseudokey and answers for it tells what the file
/// holds at the key.
pub fn a_look_tells_what_the_file_holds()
    ensures knows { LookTells }
    ensures tells { LookMayTell }
{}

/// A page that a seat may write, and that leads to a pseudokey and answers for it, is the live
/// bucket: a merge takes no page off the chain that another seat may write.
pub fn an_owned_page_that_answers_is_live()
    ensures { OwnedAnswerIsLive }
{}

/// A directory that is given back from an exclusive lock has no depth, or a live bucket is as deep
/// (Fagin et al. 1979).
pub fn a_directory_is_halved_before_it_is_given_back()
    ensures { DirectoryIsHalved }
{}

/// The bucket that has a bucket's pattern with its last bit turned is its buddy, if it is as deep:
/// together they are the range of one bit less (Fagin et al. 1979).
pub fn a_buddy_is_the_other_half()
    ensures { BuddyIsOtherHalf }
{}

/// A seat keeps through its own change of locks what it knows under a lock that it still has;
/// through a grant, all.
pub fn own_locks_keep_what_is_known()
    ensures kept { OwnLocksKeep }
    ensures grant { OwnGrantKeeps }
{}

/// No other seat holds or may aim at a page that is freed, nor at one that comes
/// onto the free list.
pub fn a_freed_page_is_nobodys()
    ensures freed { FreesNobodysPage }
    ensures linked { LinksNobodysPage }
{}
