//! The law of operations.

ghost use Rattle.record_file.specs.OperationCallers.{AddsFileNames, KeepsTold, TellsWritten};

/// What the caller of an operation knows of records under its own locks stays through each step,
/// but at the key of the operation through the WriteRecord, where it is what was written.
pub fn an_operation_keeps_what_its_caller_knows()
    ensures names { AddsFileNames }
    ensures stays { KeepsTold }
    ensures written { TellsWritten }
{}
