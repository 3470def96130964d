//! Worked examples: small scripts and their outcomes, by computation, one for each of the main rules.
ghost use Rattle.std.specs.Prelude.{[], ◌∷◌, ◌++◌, codes};
ghost use Rattle.tcltext.specs.declared.chars.fault.TextFault.TheVariants as text;
ghost use Rattle.tclrules.specs.Derivation.{BadText, TooManyCommands, TooDeep, ValueTooLong, ByHost};
ghost use Rattle.tclrules.specs.Shown.{standard, with_commands, with_depth, with_bytes, setenv_words, asked_for_mode, Results};
ghost use Rattle.tclrules.specs.Shown.{RaisesOn, Stops, HostStops, HostTraces, EndsAt};

/// Worked examples of the rules, each named for what it shows.
pub fn worked_rows()
    ensures three_turns { Results (codes "set i 0; while {$i < 3} {incr i}") [] 8 }
    ensures three_turns_limit { Stops (with_commands 7) (codes "set i 0; while {$i < 3} {incr i}") TooManyCommands }
    ensures counted_before_words { Results (codes "catch {set a $x}") (codes "1") 2 }
    ensures catch { Results (codes "catch {expr {1/0}} m; set m") (codes "divide by zero") 3 }
    ensures refused_in_catch { HostStops standard (codes "catch {conflict b}") (ByHost 51) }
    ensures body_parsed_late { Stops standard (codes "catch {if 1 \"\\\"a\"}") (BadText (text.OpenQuote 0)) }
    ensures bodies_count_for_depth { Stops (with_depth 3) (codes "if 1 {if 1 {if 1 {}}}") TooDeep }
    ensures appended { Stops (with_bytes 10) (codes "set a 123456789; append a 12") ValueTooLong }
    ensures foreach { Results (codes "foreach {x y} {1 2 3} {append s $x-$y,}; set s") (codes "1-2,3-,") 6 }
    ensures proc { Results (codes "proc f {a {b 2} args} {return $a$b$args}; f 1") (codes "12") 3 }
    ensures shared_variable { Results (codes "set x 1; proc f {} {set x 3; global x; set x}; f") (codes "1") 6 }
    ensures asked_mode { HostTraces (codes "if {[mode] eq \"unload\"} {setenv A 1}")
        (setenv_words (codes "A") (codes "1") ∷ []) [] (asked_for_mode ∷ []) }
    ensures in_a_procedure { RaisesOn 4 (codes "proc f {} {\nset x\n}\nf")
        (codes "can't read \"x\": no such variable") }
{}

/// Worked examples of places: at which offset the file's own command begins in which the evaluation ends, and at which
/// the innermost command.
pub fn place_rows()
    ensures in_if { EndsAt 0 7 2 (codes "if 1 {\nconflict b\n}") }
    ensures in_foreach { EndsAt 8 26 3 (codes "set x 1\nforeach i {1 2} {\nconflict b\n}") }
    ensures in_while { EndsAt 0 9 1 (codes "while 1 {conflict b}") }
    ensures in_switch { EndsAt 0 13 1 (codes "switch a {a {conflict b}}") }
    ensures behind_catch { EndsAt 16 16 2 (codes "catch {error a}\nerror b") }
    ensures behind_loop { EndsAt 16 16 2 (codes "while 1 {break}\nerror e") }
    ensures in_second_call { EndsAt 31 17 1 (codes "proc f x {if $x {error e}}\nf 0\nf 1") }
    ensures at_break { EndsAt 18 11 1 (codes "proc f {} {break}\nf") }
    ensures in_quotes { EndsAt 0 0 1 (codes "if 1 \"error e\"") }
    ensures in_brackets { EndsAt 0 0 1 (codes "set x [error e]") }
    ensures behind_continuation { EndsAt 0 19 2 (codes "if 1 {set x \\\n  1; error e}") }
    ensures behind_two_bytes { EndsAt 9 15 2 (codes "set x " ++ 195 ∷ 169 ∷ codes "\nif 1 {error e}") }
{}
