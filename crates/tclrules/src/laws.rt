//! Theorems of evaluations, whatever the oracle.
ghost use Rattle.std.specs.Prelude.{◌≡◌, ℕ, ◌≤◌, ◌<◌, ◌⊎◌, Bool, true, false, List, [], Some};
ghost use Rattle.tcltext.specs.chars.Runs.{Text};
ghost use Rattle.tclrules.specs.Oracle.{CommandWords, Oracle, records_with, addition};
ghost use Rattle.tclrules.specs.Derivation.{EvaluationOutcome, Halted, TooManyCommands, ByHost, World, Throughout};
ghost use Rattle.tclrules.specs.Derivation.{AnswersOrRefuses, AnswersAlikeUnasked, RepeatsAnswers, IsUnrefused, IsNoted};
ghost use Rattle.tclrules.specs.Derivation.{asks, Grows};
ghost use Rattle.tclrules.specs.Plans.{Completion};
ghost use Rattle.tclrules.specs.Meaning.{Setting, EvaluatesTo, limited_to, with_oracle, HasNoEnd, PreservedByAnswers};
ghost use Rattle.tclrules.specs.Meaning.{IsSameOrRefused, play_file};

/// A script has one outcome.
pub fn one_outcome()
    ensures { (s : Setting) (o o2 : EvaluationOutcome Completion) (w w2 : World)
        → EvaluatesTo s o w → EvaluatesTo s o2 w2 → (o ≡ o2) × (w ≡ w2) }
{}

/// Each script has an outcome, under each limit.
pub fn some_outcome()
    ensures { (s : Setting) → (o : EvaluationOutcome Completion) × (w : World) × EvaluatesTo s o w }
{}

/// An outcome that isn't due to the limit on commands is the same under each limit that is at least its count, and
/// under each lower limit that limit is met.
pub fn other_limit()
    ensures same { (s : Setting) (o : EvaluationOutcome Completion) (w : World) (n : ℕ)
        → EvaluatesTo s o w → ¬ (o ≡ Halted TooManyCommands) → w.used ≤ n → EvaluatesTo (limited_to n s) o w }
    ensures met { (s : Setting) (o : EvaluationOutcome Completion) (w : World) (n : ℕ)
        → EvaluatesTo s o w → n < w.used → (w2 : World) × EvaluatesTo (limited_to n s) (Halted TooManyCommands) w2 }
{}

/// A script that never ends meets each limit on commands. One that meets the limits on depth or on values does end.
pub fn endless()
    ensures { (s : Setting) (n : ℕ)
        → HasNoEnd s → (w : World) × EvaluatesTo (limited_to n s) (Halted TooManyCommands) w }
{}

/// Where a second oracle reserves the same names, and answers each consultation of an evaluation as the first does, or
/// refuses it, the outcome is the same, or a refusal. Where nothing was asked and nothing refused, it is enough that it
/// does so for commands that are no questions and that the first doesn't refuse; and where something was asked, that it
/// also answers as before what was asked.
pub fn two_oracles()
    ensures each { (s : Setting) (second : Oracle) (o o2 : EvaluationOutcome Completion) (w w2 : World) (d : EvaluatesTo s o w)
        → second.reserved ≡ s.oracle.reserved → Throughout (AnswersOrRefuses s.oracle second) d
        → EvaluatesTo (with_oracle second s) o2 w2 → IsSameOrRefused o w o2 w2 }
    ensures unasked { (s : Setting) (second : Oracle) (o o2 : EvaluationOutcome Completion) (w w2 : World)
        → EvaluatesTo s o w → w.trace.asked ≡ [] → ((n : ℕ) → ¬ (o ≡ Halted (ByHost n)))
        → AnswersAlikeUnasked s.oracle second → EvaluatesTo (with_oracle second s) o2 w2 → IsSameOrRefused o w o2 w2 }
    ensures asked { (s : Setting) (second : Oracle) (o o2 : EvaluationOutcome Completion) (w w2 : World)
        → EvaluatesTo s o w → RepeatsAnswers second w.trace → ((n : ℕ) → ¬ (o ≡ Halted (ByHost n)))
        → AnswersAlikeUnasked s.oracle second → EvaluatesTo (with_oracle second s) o2 w2 → IsSameOrRefused o w o2 w2 }
{}

/// Where nothing was asked, no consultation was a question.
pub fn unasked()
    ensures { (s : Setting) (o : EvaluationOutcome Completion) (w : World) (d : EvaluatesTo s o w)
        → w.trace.asked ≡ [] → Throughout (λ records query. asks s.oracle records query ≡ false) d }
{}

/// Each consultation that is a question is in what was asked, with its answer.
pub fn noted()
    ensures { (s : Setting) (o : EvaluationOutcome Completion) (w : World) (d : EvaluatesTo s o w)
        → Throughout (IsNoted s.oracle w.trace.asked) d }
{}

/// An evaluation that the host didn't refuse had no consultation that was refused.
pub fn unrefused()
    ensures { (s : Setting) (o : EvaluationOutcome Completion) (w : World) (d : EvaluatesTo s o w)
        → ((n : ℕ) → ¬ (o ≡ Halted (ByHost n))) → Throughout (IsUnrefused s.oracle) d }
{}

/// The records grow by the oracle's answers alone. So what holds of those before, and still holds with each answer's
/// addition, holds of those after.
pub fn grown()
    ensures grows { (s : Setting) (o : EvaluationOutcome Completion) (w : World)
        → EvaluatesTo s o w → Grows s.oracle s.trace.records w.trace.records }
    ensures preserved { (s : Setting) (o : EvaluationOutcome Completion) (w : World) (holds : List CommandWords → Bool)
        → EvaluatesTo s o w → holds s.trace.records ≡ true → PreservedByAnswers s.oracle holds
        → holds w.trace.records ≡ true }
{}

/// The function `play_file`, which computes, gives the outcome of a script in enough steps, and never another one.
pub fn played()
    ensures derived { (s : Setting) (steps : ℕ) (o : EvaluationOutcome Completion) (w : World)
        → play_file s steps ≡ Some (o, w) → EvaluatesTo s o w }
    ensures enough { (s : Setting) (o : EvaluationOutcome Completion) (w : World)
        → EvaluatesTo s o w → (steps : ℕ) × (play_file s steps ≡ Some (o, w)) }
{}
