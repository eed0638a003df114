//! The law of new files. The function does nothing; its contract is the law.

ghost use Rattle.files_at_rest.specs.NewFileLaws.{NewHasNoQueues};

/// The pages that `record_file::format` leaves are a file of the system without
/// queues, whatever the pseudokeys.
pub fn a_new_file_has_no_queues()
    ensures { NewHasNoQueues }
{}
