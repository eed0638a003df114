//! Laws of what the pages of a file mean. The functions do nothing; their contracts are the laws.

ghost use Rattle.files_at_rest.specs.SpelledLaws.{FileSpellsSystem, PagesSpellOneSystem};

/// The pages that are the file of a system, as the check of a file says, spell just the records of
/// that system: a chain of sealed buckets from the root page on, and in them each record that the
/// system has and no other. Nothing else is part of what a file means.
pub fn the_file_of_a_system_spells_it()
    ensures { FileSpellsSystem }
{}

/// Pages spell the records of one system at most.
pub fn pages_spell_one_system()
    ensures { PagesSpellOneSystem }
{}
