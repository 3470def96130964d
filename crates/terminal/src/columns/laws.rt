//! Laws of lines in columns. Each is a function that does nothing: its contract is the law.
ghost use Rattle.terminal.specs.columns.Laws.{FieldsFill, KeepsTexts, LinesStay, StaysShort};

/// Blanks and tabs aside an aligned text is the text: no byte is lost, added or moved.
#[tactic(auto, using(crate::proofs::columns::KeptLemmas::keeps_texts))]
pub fn texts_are_kept()
    ensures { KeepsTexts }
{}

/// A field of a line that tabs part, with what fills its column, is as wide as its column and two blanks, if it isn't
/// wider than a column can be.
#[tactic(auto, using(crate::proofs::columns::FillLemmas::fields_fill))]
pub fn fields_fill()
    ensures { FieldsFill }
{}

/// A line that no tab parts stays as it is.
#[tactic(auto, using(crate::proofs::columns::KeptLemmas::lines_stay))]
pub fn lines_stay()
    ensures { LinesStay }
{}

/// An aligned text has at most 82 times as many bytes.
#[tactic(auto, using(crate::proofs::columns::ShortLemmas::stays_short))]
pub fn texts_stay_short()
    ensures { StaysShort }
{}
