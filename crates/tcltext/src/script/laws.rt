//! Laws of scripts: functions that do nothing, whose contracts are theorems about the definitions.
ghost use Rattle.std.specs.Prelude.{◌≡◌, ◌≢◌, ◌↔◌, ◌≤◌, suc, [], ◌∷◌, ◌++◌, length, Ok, Err, None};
ghost use Rattle.tcltext.specs.chars.Runs.{Text};
ghost use Rattle.tcltext.specs.chars.Bytes.{backslash, left_parenthesis};
ghost use Rattle.tcltext.specs.chars.Backslash.{after_backslash};
ghost use Rattle.tcltext.specs.chars.Faults.{max_bytes, max_nesting};
ghost use Rattle.tcltext.specs.chars.Reading.{remaining_of};
ghost use Rattle.tcltext.specs.declared.chars.fault.Fault.{Fault};
ghost use Rattle.tcltext.specs.declared.chars.fault.Fault.TheVariants.{JoinedToClose, TooDeep, BadCharacter};
ghost use Rattle.tcltext.specs.declared.chars.fault.TextFault.{TextFault};
ghost use Rattle.tcltext.specs.declared.chars.fault.TextFault.TheVariants.{OutOfMemory};
ghost use Rattle.tcltext.specs.script.Tree.{Commands, nesting};
ghost use Rattle.tcltext.specs.script.Grammar.{IsScript};
ghost use Rattle.tcltext.specs.script.Faults.{IsFault, IsTextFault};
ghost use Rattle.tcltext.specs.script.ViablePrefixes.{IsViablePrefix, ShowsFault, IsBadEscape, IsOpenMark};
ghost use Rattle.tcltext.specs.script.Text.{IsWithin, script_of};

/// A text is a script with one tree at most.
pub fn one_script()
    ensures { (bs : Text) (s t : Commands) → IsScript bs s → IsScript bs t → s ≡ t }
{}

/// A text has one fault at most, want of memory aside.
pub fn one_fault()
    ensures { (bs : Text) (f g : TextFault) → f ≢ OutOfMemory → g ≢ OutOfMemory → IsTextFault bs f → IsTextFault bs g
        → f ≡ g }
{}

/// `script_of` gives a tree exactly where the grammar has it within the limits, and a fault exactly where that is the
/// fault of the text, want of memory never; and a text with a fault has no tree within the limits.
pub fn script_of_grammar()
    ensures tree { (bs : Text) (s : Commands) → (script_of bs ≡ Ok s) ↔ IsWithin bs s }
    ensures fault { (bs : Text) (f : TextFault) → f ≢ OutOfMemory → (script_of bs ≡ Err f) ↔ IsTextFault bs f }
    ensures no_memory { (bs : Text) → script_of bs ≢ Err OutOfMemory }
    ensures no_tree { (bs : Text) (f : TextFault) (s : Commands) → f ≢ OutOfMemory → IsTextFault bs f → IsWithin bs s
        → ⊥ }
{}

/// Faults are found at the first byte that shows them (the correct-prefix property), in a text that isn't nested too
/// deeply.
///
/// The text before the offset of a fault is the beginning of some script. What follows a closing brace or quote, and
/// what a backslash begins, is not: no script begins with the text up to and with it, however deep that nests; of what
/// a backslash begins five bytes show it at most. Where a mark is open, the whole text is the beginning of some script.
pub fn correct_prefix()
    ensures before_mark { (before rest : Text) (f : Fault) → IsFault max_nesting (before ++ rest) f → f ≢ TooDeep
        → remaining_of f ≡ length rest → IsViablePrefix before }
    ensures with_joined { (before bad rest : Text) → IsFault max_nesting (before ++ (bad ++ rest))
        (JoinedToClose (length (bad ++ rest))) → ShowsFault bad
        → IsViablePrefix (before ++ bad) → ⊥ }
    ensures with_escape { (before bad rest : Text) → IsFault max_nesting (before ++ backslash ∷ (bad ++ rest))
        (BadCharacter (suc (length (bad ++ rest)))) → IsBadEscape bad
        → IsViablePrefix (before ++ backslash ∷ bad) → ⊥ }
    ensures escapes { (bs : Text) → bs ≢ [] → after_backslash bs ≡ None
        → (bad : Text) × (rest : Text) × (bs ≡ bad ++ rest) × (length bad ≤ 5) × IsBadEscape bad }
    ensures open_marks { (bs : Text) (f : Fault) → IsFault max_nesting bs f → IsOpenMark f → IsViablePrefix bs }
    ensures open_index { (before rest : Text) → IsFault max_nesting (before ++ left_parenthesis ∷ rest)
        (BadCharacter (suc (length rest))) → IsViablePrefix (before ++ left_parenthesis ∷ rest) }
{}
