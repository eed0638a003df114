//! Pages in memory that are to be saved.
ghost use Rattle.std.specs.Prelude.{◌≡◌, ℕ, List, Some, length, slice_get, IfSome, IsTrue};
ghost use Rattle.pair_transfers.specs.Saving.{IsToldOf, NotesPages};

use safe_device::page_device::Page;

/// Pages in memory, of which some have changed since they were saved.
pub trait Unsaved {
    /// The pages as they were saved last.
    ghost saved: { Self → List (List ℕ) };

    /// These are its pages as they are to be written.
    ghost wants: { Self → List (List ℕ) → Type 0 };

    /// What telling a page may change beside.
    ghost turned: { Self → Self → Type 0 };

    /// What noting that they are saved does beside.
    ghost noted: { Self → Self → Type 0 };

    /// There are as many.
    ghost as_many: { (s : Self) (content : List (List ℕ)) → wants s content →
        length content ≡ length (saved s) };

    /// The next page from this one on that may have changed since the pages were saved; none where
    /// there is none. Each page that is passed by is as it was saved.
    fn next_changed(&self, from: u32) -> Option<u32>
        ensures { (content : List (List ℕ)) → wants self.now content →
            IsToldOf from result (saved self.now) content };

    /// A page as it is to be written; none where it can't be told.
    fn page(&mut self, page: u32) -> Option<Page>
        ensures is { IfSome result (λ bytes. (content : List (List ℕ)) →
            wants self.old content → slice_get content page ≡ Some bytes) }
        ensures kept { IfSome result (λ _. (content : List (List ℕ)) →
            wants self.old content → wants self.new content) }
        ensures turned { IfSome result (λ _. turned self.old self.new) }
        ensures saved { saved self.new ≡ saved self.old };

    /// Notes that the pages are saved; false where that can't be.
    fn note_saved(&mut self) -> bool
        ensures pages { IsTrue result → (content : List (List ℕ)) → wants self.old content →
            NotesPages content (saved self.new) (wants self.new) }
        ensures noted { IsTrue result → noted self.old self.new };
}
