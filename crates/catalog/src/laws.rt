ghost use Rattle.catalog.specs.Laws.{CallsKeepAgreement, InversesAreOne, SearchesFindHits, TextsAreRead};

/// Where the documents of a catalog agree, they do after each call.
pub fn calls_keep_agreement()
    ensures { CallsKeepAgreement }
{}

/// Where the documents of a catalog agree, a search by its indexes finds what a filter of its entries would.
pub fn searches_find_hits()
    ensures { SearchesFindHits }
{}

/// An index is the inverse of a column exactly where its keys are those of the column's inverse.
pub fn inverses_are_one()
    ensures { InversesAreOne }
{}

/// Entries and indexes of the form are read from their texts, and what is read has the text that it was read from.
pub fn texts_are_read()
    ensures { TextsAreRead }
{}
