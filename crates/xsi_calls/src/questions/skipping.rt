//! A question that is asked in one go.

ghost use Rattle.std.specs.Prelude.{◌≡◌, ◌+◌, None, false, min, true};
ghost use Rattle.xsi_calls.specs.QuestionWords.{IsReady, IsSeat, row_of};
ghost use Rattle.xsi_calls.specs.Counting.{MOST_FINDS};
ghost use Rattle.xsi_calls.specs.Parts.{asked_with};
ghost use Rattle.xsi_calls.specs.QuestionSteps.{MakesQuestions};
ghost use Rattle.xsi_calls.specs.QuestionRuns.{AsksAtOnce};
ghost use Rattle.xsi_calls.specs.Questions.{question_searches};

use crate::hearing::hear;
use crate::questions::{Questions, is_ready, key_asked};
use bucket_page::PseudoKey;
use buffer_pool::Pool;
use call_writes::{BucketAccess, BucketDeed as Deed, record_ahead};
use page_device::PageDevice;
use page_locks::LockTable;
use queue_model::Call;
use xsi_inquiry::Inquiry;

impl Questions {
    /// All steps of the next question, in one go, while none is under way: where the names that it
    /// needs are held, its find goes straight to a page, which is in a frame as all pages on its way are,
    /// and what stands there is a record of its key, or none does. The record is heard from that
    /// frame: no access begins for it. Else nothing is done, and it is left to the steps of the call.
    pub(crate) fn skip<D: PageDevice, K: PseudoKey>(
        &mut self,
        pool: &mut Pool<D>,
        locks: &LockTable,
        keys: &K,
        seat: u8,
        call: &Call,
    ) -> bool
        requires seat { IsSeat locks.now seat }
        requires ready { IsReady pool.old }
        requires row { row_of locks.now seat ≡ self.old.names }
        ensures pool { pool.new ≡ pool.old }
        ensures made { result ≡ true → AsksAtOnce
            (MakesQuestions (K.of_key keys.now) seat call.now) question_searches seat
            (asked_with self.old None) (asked_with self.new None) pool.old locks.now }
        ensures spares { result ≡ false → self.new ≡ self.old }
    {
        let Some(wanted) = self.inquiry.wants(call) else {
            return false;
        };
        if !is_ready(self.names.turn(call, &self.inquiry)) {
            return false;
        }
        self.names.keep_order();
        let key = key_asked(wanted);
        let find = BucketAccess::new(Deed::Find, key, keys.of(&key));
        let Some(page) = find.heads_for(pool, locks, seat) else {
            return false;
        };
        let Some(found) = record_ahead(pool, page, &key) else {
            return false;
        };
        let Ok(()) = hear(&mut self.inquiry, &mut self.room, call, wanted, found) else {
            return false;
        };
        self.finds = self.finds.saturating_add(1);
        true
    }

    /// Counts a search of the call beside its questions.
    pub(crate) fn count_one(&mut self)
        ensures { self.new ≡ record self.old { finds = min (self.old.finds + 1) MOST_FINDS } }
    {
        self.finds = self.finds.saturating_add(1);
    }
}
