//! What holds of values for people at every input. These functions do
//! nothing: their contracts are the laws.
ghost use Rattle.people.specs.Laws.{ReadingExists, OneReading, SpellingsJoin, LabelsAgree};

/// Every value has exactly one reading, and the spellings of its parts join to
/// the value (RFC 2047, sections 2 and 6.2).
pub fn one_reading()
    ensures exists { ReadingExists }
    ensures only { OneReading }
    ensures joins { SpellingsJoin }
{}

/// Where a charset's name is a label of the Encoding Standard, `people_label`
/// gives the standard's encoding (section 4.2).
pub fn labels_agree()
    ensures { LabelsAgree }
{}
