//! Laws of the records of a system. Each stands on the contract of a function that does nothing.

ghost use Rattle.std.specs.Prelude.{ℕ, List};
ghost use Rattle.queue_model.specs.declared.call.SendArguments.{SendArguments};
ghost use Rattle.queue_model.specs.declared.message.Message.{Message};
ghost use Rattle.queue_model.specs.declared.queue.Queue.{Queue};
ghost use Rattle.queue_model.specs.Lawful.{IsLawfulQueue};
ghost use Rattle.queue_model.specs.State.{State};
ghost use Rattle.type_chains.specs.Fits.{KeepsFittingNumbers};
ghost use Rattle.type_chains.specs.Laws.{AgreesWithImage, AreSpelled, HasDistinctKeys, KeepsLimits, StandsAtItsKey, TellsQueue};
ghost use Rattle.type_chains.specs.Lists.{AreTypesOf, types};
ghost use Rattle.type_chains.specs.Others.{ChangesOneQueue, IsLocal};
ghost use Rattle.type_chains.specs.Reading.{IsReadable};
ghost use Rattle.type_chains.specs.Sending.{IsMadeOfTheQueue};

/// A record stands at its own key.
pub fn a_record_stands_at_its_key()
    ensures { StandsAtItsKey }
{}

/// Systems that differ in one queue agree at every key that is not that queue's, its key's or the
/// Counter's.
pub fn other_queues_keep_their_records()
    ensures { IsLocal }
{}

/// Each record of a lawful system keeps the limits that one record has to keep by itself.
pub fn records_keep_their_limits()
    ensures { KeepsLimits }
{}

/// A record is in the image of a lawful system and has a key exactly where the system has it at
/// that key.
pub fn the_image_is_the_records_at_their_keys()
    ensures { AgreesWithImage }
{}

/// No two records of the image of a lawful system have one key.
pub fn records_of_the_image_have_distinct_keys()
    ensures { HasDistinctKeys }
{}

/// A record's key tells its queue: records of two queues of a lawful system have no key in common.
pub fn a_key_tells_its_queue()
    ensures { TellsQueue }
{}

/// The types of messages ascend, and are exactly those that a message has. So a type has a record
/// exactly while a message of it is on the queue.
pub fn the_types_are_those_of_the_messages()
    ensures { (ms : List Message) → AreTypesOf ms (types ms) }
{}

/// The record of a queue tells who may read, write, set and remove, whether there is room, the next
/// serial and all that Stat answers. Where there is none the id has no queue.
pub fn a_queue_is_read_off_its_record()
    ensures { (s : State) (id : ℕ) → IsReadable s id }
{}

/// Where the numbers of a lawful system fit their fields, each of its records is spelled by its key
/// and its value, so these are read as that record alone.
pub fn records_are_spelled()
    ensures { AreSpelled }
{}

/// A call that is answered leaves all queues but the one that it names, or makes.
pub fn a_call_changes_one_queue()
    ensures { ChangesOneQueue }
{}

/// After a Send the Queue's record and the new Message's are made of the Queue's record before and
/// the call alone.
pub fn a_send_is_made_of_the_queues_record()
    ensures { (pid : ℕ) (a : SendArguments) (q : Queue) →
        IsLawfulQueue q → IsMadeOfTheQueue pid a q }
{}

/// An answered call of which the numbers fit leaves a system of which the numbers fit.
pub fn calls_keep_numbers_that_fit()
    ensures { KeepsFittingNumbers }
{}
