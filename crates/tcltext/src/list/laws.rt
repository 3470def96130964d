//! Laws of lists: functions that do nothing, whose contracts are theorems about the definitions.
ghost use Rattle.std.specs.Prelude.{◌≡◌, ◌≢◌, ◌↔◌, ◌≤◌, ◌+◌, ◌++◌, ℕ, List, length, take, Ok, Err};
ghost use Rattle.tcltext.specs.chars.Runs.{Text};
ghost use Rattle.tcltext.specs.chars.Faults.{max_bytes};
ghost use Rattle.tcltext.specs.chars.Reading.{remaining_of};
ghost use Rattle.tcltext.specs.declared.chars.fault.Fault.{Fault};
ghost use Rattle.tcltext.specs.declared.chars.fault.TextFault.{TextFault};
ghost use Rattle.tcltext.specs.declared.chars.fault.TextFault.TheVariants.{OutOfMemory, JoinedToClose, BadCharacter};
ghost use Rattle.tcltext.specs.list.ListGrammar.{IsList, IsListPrefix};
ghost use Rattle.tcltext.specs.list.ListFaults.{IsFault, IsListFault};
ghost use Rattle.tcltext.specs.list.ListReading.{list_of};
ghost use Rattle.tcltext.specs.list.Lists.{list_text};

/// A text, as a list, has one sequence of elements at most.
pub fn one_list()
    ensures { (bs : Text) (es fs : List Text) → IsList bs es → IsList bs fs → es ≡ fs }
{}

/// A text has one fault at most, want of memory aside; and within the limit of length a text with a fault is no list.
pub fn one_list_fault()
    ensures one { (bs : Text) (f g : TextFault) → f ≢ OutOfMemory → g ≢ OutOfMemory → IsListFault bs f
        → IsListFault bs g → f ≡ g }
    ensures no_list { (bs : Text) (f : TextFault) (es : List Text) → f ≢ OutOfMemory → length bs ≤ max_bytes
        → IsListFault bs f → IsList bs es → ⊥ }
{}

/// Within the limit of length, `list_of` gives elements exactly where the grammar has them; it gives a fault exactly
/// where that is the fault of the text, want of memory never.
pub fn list_of_grammar()
    ensures elements { (bs : Text) (es : List Text) → length bs ≤ max_bytes → (list_of bs ≡ Ok es) ↔ IsList bs es }
    ensures fault { (bs : Text) (f : TextFault) → f ≢ OutOfMemory → (list_of bs ≡ Err f) ↔ IsListFault bs f }
    ensures no_memory { (bs : Text) → list_of bs ≢ Err OutOfMemory }
{}

/// The text before the offset of a fault is the beginning of some list.
pub fn prefix_before_fault()
    ensures { (before rest : Text) (f : Fault) → IsFault (before ++ rest) f → remaining_of f ≡ length rest
        → IsListPrefix before }
{}

/// No list begins with a text up to and with the character that is joined to a closing brace or quote, and none with a
/// text that has a backslash that stands for nothing.
pub fn no_list_prefix()
    ensures joined { (bs more : Text) (at : ℕ) (es : List Text) → IsListFault bs (JoinedToClose at)
        → IsList (take (at + 1) bs ++ more) es → ⊥ }
    ensures bad { (bs more : Text) (at : ℕ) (es : List Text) → IsListFault bs (BadCharacter at)
        → IsList (bs ++ more) es → ⊥ }
{}

/// The text that is written for elements is a list of these elements.
pub fn list_round_trip()
    ensures { (es : List Text) → IsList (list_text es) es }
{}
