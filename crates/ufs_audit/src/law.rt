ghost use Rattle.ufs_audit.specs.Laws.{LegalTextsArePrinted, PrintedTextsAreLegal, LegalFrontsArePrinted, PrintedFrontsAreLegal};

/// A law on texts, which costs nothing: a legal text is what is printed of a history that is legal, in order and
/// complete.
pub fn a_legal_text_is_printed()
    ensures { LegalTextsArePrinted }
{}

/// A law on histories, which costs nothing: what is printed of one that is legal, in order and complete is a legal
/// text.
pub fn a_printed_text_is_legal()
    ensures { PrintedTextsAreLegal }
{}

/// A law on texts, which costs nothing: a text that is legal through some lines of its trace begins with what is
/// printed of a history of as many entries that is legal and in order.
pub fn a_legal_front_is_printed()
    ensures { LegalFrontsArePrinted }
{}

/// A law on histories, which costs nothing: a text that begins with what is printed of one that is legal and in order is
/// legal through the lines of its entries.
pub fn a_printed_front_is_legal()
    ensures { PrintedFrontsAreLegal }
{}
