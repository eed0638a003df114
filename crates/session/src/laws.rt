//! The law of a session's pages. The function does nothing; its contract is the law.

ghost use Rattle.session.specs.Session.{PagesAreTheFile};

use bucket_page::ShaKey;
use interleavings::a_kernel_at_rest_closes_on_its_file;

/// The pages that a session gives, all of them, are the file of the system that it holds.
pub fn the_pages_are_the_file()
    ensures { PagesAreTheFile }
{
    a_kernel_at_rest_closes_on_its_file::<ShaKey>();
}
