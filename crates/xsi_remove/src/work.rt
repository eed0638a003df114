//! A turn under way, by one access after the other.

ghost use Rattle.std.specs.Prelude.{◌≡◌, ◌≢◌, ◌↔◌, None, Ok, Some, true};
ghost use Rattle.queue_records.specs.declared.message_entry.MessageEntry.{MessageEntry};
ghost use Rattle.queue_records.specs.declared.record.Record.TheVariants as records;
ghost use Rattle.xsi_remove.specs.Words.{Delete, HasEnded, HasFound, Look, Moved, RecordKey, Serves, ToFind, ToWrite, access_answer, aimed_at, begun, read_of, turn_next};
ghost use Rattle.xsi_remove.specs.Deeds.{behind, behind_message, begun_work, last_type, next_of, purpose_of, turn_behind, with_deed};
ghost use Rattle.xsi_remove.specs.Works.{Hears, LeadsOn};

use bucket_page::{PseudoKey, RecordKey};
use file_pages::FileFault;
use queue_records::{message_key, type_key};
use record_file::Access;
use step_rules::{Kind, Progress};
use xsi_control::{MessageRead, Turn};
use xsi_inquiry::{NotASystem, Write, message_in};

/// What is done in a turn, by one access.
#[derive(Clone, Copy)]
pub(crate) enum Deed {
    /// The Message is found.
    Reading,
    /// The Message goes.
    DeletingMessage,
    /// The Type goes of which it was the last message.
    DeletingType(i64),
}

/// What follows a deed.
#[derive(Clone, Copy)]
pub(crate) enum Next {
    /// This one, of the same turn.
    Goes(Deed),
    /// The turn of this serial.
    Begins(u64),
    /// No message is left.
    Over,
}

/// A turn under way.
#[derive(Drop)]
pub(crate) struct Work {
    turn: Turn,
    deed: Deed,
    turns: u16,
    pub(crate) access: Access,
}

impl Work {
    /// A turn that begins, behind which so many may follow.
    pub(crate) fn begin<K: PseudoKey>(turn: Turn, turns: u16, keys: &K) -> Work
        ensures { result ≡ begun_work (K.of_key keys.now) turn turns }
    {
        let key = message_key(turn.id, turn.serial);
        Work {
            turn,
            deed: Deed::Reading,
            turns,
            access: Access::find(key, keys.of(&key)),
        }
    }

    /// Whether its access has given all its locks back.
    pub(crate) fn has_ended(&self) -> bool
        ensures ended { (result ≡ true) ↔ HasEnded self.now.access.operation }
        ensures answered { (key : RecordKey) → Serves (ToFind key) self.now.access →
            result ≡ true → access_answer self.now.access ≢ None }
    {
        self.access.has_ended()
    }

    /// Tells the turn what its find has found, once, where its access has looked at a page.
    pub(crate) fn hear(&mut self, did: Progress<FileFault>) -> Result<(), NotASystem>
        ensures { Hears did result self.old self.new }
    {
        if !is_look(did) {
            return Ok(());
        }
        if self.turn.read.is_some() {
            return Ok(());
        }
        self.turn.read = message_found(&self.access)?;
        Ok(())
    }

    /// Begins what follows where its access has ended. False where no message is left.
    pub(crate) fn go_on<K: PseudoKey>(&mut self, keys: &K) -> Result<bool, FileFault>
        ensures { LeadsOn result (next_of (K.of_key keys.now) self.old) self.old self.new }
    {
        match behind(self.deed, &self.turn, self.access.has_written()) {
            None => Err(FileFault::Failed),
            Some(Next::Goes(deed)) => {
                self.begin_deed(deed, keys);
                Ok(true)
            }
            Some(Next::Begins(serial)) => {
                if self.turns == 0 {
                    return Err(FileFault::Failed);
                }
                self.turn = Turn::new(self.turn.id, serial);
                self.turns -= 1;
                self.begin_deed(Deed::Reading, keys);
                Ok(true)
            }
            Some(Next::Over) => Ok(false),
        }
    }

    fn begin_deed<K: PseudoKey>(&mut self, deed: Deed, keys: &K)
        ensures { self.new ≡ with_deed (K.of_key keys.now) deed self.old }
    {
        self.deed = deed;
        begin_access(&mut self.access, &self.turn, deed, keys);
    }
}

/// The access becomes that of a deed, in place.
fn begin_access<K: PseudoKey>(access: &mut Access, turn: &Turn, deed: Deed, keys: &K)
    ensures { access.new ≡ begun (purpose_of deed turn.now)
        (K.of_key keys.now (aimed_at (purpose_of deed turn.now))) }
{
    match deed {
        Deed::Reading => {
            let key = message_key(turn.id, turn.serial);
            access.begin_find(key, keys.of(&key));
        }
        Deed::DeletingMessage => {
            begin_deletion(access, message_key(turn.id, turn.serial), keys);
        }
        Deed::DeletingType(mtype) => begin_deletion(access, type_key(turn.id, mtype), keys),
    }
}

fn begin_deletion<K: PseudoKey>(access: &mut Access, key: RecordKey, keys: &K)
    ensures { access.new ≡ begun (ToWrite (Delete key)) (K.of_key keys.now key) }
{
    access.begin_write(&Write::Delete(key), keys.of(&key));
}

/// What a find has found of a Message, once a page answered.
fn message_found(access: &Access) -> Result<Option<MessageRead>, NotASystem>
    ensures open { access_answer access.now ≡ None → result ≡ Ok None }
    ensures told { (m : MessageEntry) → HasFound access.now (Some (records.Message m)) →
        result ≡ Ok (Some (read_of m)) }
{
    let Some(found) = access.found() else {
        return Ok(None);
    };
    let Some(entry) = found else {
        return Err(NotASystem);
    };
    let message = message_in(entry)?;
    Ok(Some(MessageRead::of(&message)))
}

/// What follows a deed, of which it is told whether it has written; none where that can't be so.
fn behind(deed: Deed, turn: &Turn, written: bool) -> Option<Next>
    ensures { result ≡ behind deed turn.now written }
{
    match deed {
        Deed::Reading => {
            turn.read?;
            Some(Next::Goes(Deed::DeletingMessage))
        }
        _ if !written => None,
        Deed::DeletingMessage => Some(behind_message(turn)),
        Deed::DeletingType(_) => Some(turn_behind(turn)),
    }
}

/// The Type goes with the last message of it.
fn behind_message(turn: &Turn) -> Next
    ensures { result ≡ behind_message (last_type turn.now.read) turn.now }
{
    match turn.read {
        Some(
            MessageRead {
                last_of: Some(mtype),
                ..
            },
        ) => Next::Goes(Deed::DeletingType(mtype)),
        _ => turn_behind(turn),
    }
}

/// The next turn, where a message is left.
fn turn_behind(turn: &Turn) -> Next
    ensures { result ≡ turn_behind (turn_next turn.now) }
{
    match turn.next() {
        Some(serial) => Next::Begins(serial),
        None => Next::Over,
    }
}

/// Whether a page was looked at.
fn is_look(did: Progress<FileFault>) -> bool
    ensures looked { result ≡ true → did ≡ Moved Look }
    ensures other { did ≡ Moved Look → result ≡ true }
{
    matches!(did, Progress::Moved(Kind::Look))
}
