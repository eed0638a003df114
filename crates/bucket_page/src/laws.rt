//! Laws of the definitions. The functions do nothing; their contracts are the laws.

ghost use Rattle.bucket_page.specs.Laws.{FillsIsSpelled, HalfHasItsPairs, IsStrictOrder, JoinHasBoth, OrderIsOfBytes, PutSetsOneKey, RemoveClearsOneKey, ReplaceSetsOneKey, SpelledOnce};

/// A payload spells at most one page.
pub fn a_payload_spells_one_page()
    ensures { SpelledOnce }
{}

/// Keys stand in the order of their bytes.
pub fn keys_stand_in_the_order_of_their_bytes()
    ensures { OrderIsOfBytes }
{}

/// The order of keys is strict, and any two stand in it.
pub fn keys_stand_in_a_strict_order()
    ensures { IsStrictOrder }
{}

/// The test of lengths passes exactly where the bytes are those of so many records.
pub fn records_fill_just_their_bytes()
    ensures { FillsIsSpelled }
{}

/// A put sets the value of one key.
pub fn put_sets_one_key()
    ensures { PutSetsOneKey }
{}

/// A replacement sets the value of one key.
pub fn replace_sets_one_key()
    ensures { ReplaceSetsOneKey }
{}

/// A removal takes the value of one key.
pub fn remove_clears_one_key()
    ensures { RemoveClearsOneKey }
{}

/// A half has the pairs whose pseudokeys have its bit.
pub fn a_half_has_its_pairs()
    ensures { HalfHasItsPairs }
{}

/// A join has the pairs of both.
pub fn a_join_has_the_pairs_of_both()
    ensures { JoinHasBoth }
{}
