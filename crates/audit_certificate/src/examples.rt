//! Worked examples of certificates, computed from the definitions, and why the rules are as they are.
ghost use Rattle.audit_certificate.specs.Examples.{OneDelimiter, OneStack, BothAbsent, TwoDelimiters, PathAndStack};
ghost use Rattle.audit_certificate.specs.Examples.{BothSet, BothUnset, SetAndAbsent, OtherVariable, FirstInConflict};
ghost use Rattle.audit_certificate.specs.Examples.{SecondInConflict, ConflictByPart, ConflictByLetters};
ghost use Rattle.audit_certificate.specs.Examples.{ConflictWithAnother, TwoVersions};
ghost use Rattle.audit_certificate.specs.Examples.{TwoFiles, SetAndPushed, ExclusiveDelimiters, SetOrAbsent};
ghost use Rattle.audit_certificate.specs.Examples.{SetAndUnset, UnsetAndAbsent, TwoValues};
ghost use Rattle.audit_certificate.specs.Examples.{TwoFilesAndValues, OneValue, TwoUses, DelimitersInOne, ValuesInOne};
ghost use Rattle.audit_certificate.specs.Examples.{ModulepathPushed, ModulepathParted, ModulepathExtended, OneWay};
ghost use Rattle.audit_certificate.specs.Examples.{LoseByDelimiters, LoseByPathAndStack, LoseBySetAndPush};
ghost use Rattle.audit_certificate.specs.Examples.{LoseByUnsetAndPush, LoseByBothSet, LoseBySetAndAbsent};
ghost use Rattle.audit_certificate.specs.Examples.{SetAndPushLeaveValue, StartsAgree};
ghost use Rattle.audit_certificate.specs.Examples.{BothRead, ReadAndSet, SetAndRead, ReadAndPath, AbsentAndRead};
ghost use Rattle.audit_certificate.specs.Examples.{ReaderInConflict, UserInConflict, ReaderOfOneName, TwoReaders};
ghost use Rattle.audit_certificate.specs.Examples.{ModulepathRead, ReadsItsOwn};

/// Two modules that don't exclude each other use one variable.
pub fn clashes()
    ensures one_delimiter { OneDelimiter }
    ensures one_stack { OneStack }
    ensures both_absent { BothAbsent }
    ensures two_delimiters { TwoDelimiters }
    ensures path_and_stack { PathAndStack }
    ensures both_set { BothSet }
    ensures both_unset { BothUnset }
    ensures set_and_absent { SetAndAbsent }
    ensures other_variable { OtherVariable }
{}

/// Two modules set one variable: whether they exclude each other decides.
pub fn exclusions()
    ensures first_in_conflict { FirstInConflict }
    ensures second_in_conflict { SecondInConflict }
    ensures conflict_by_part { ConflictByPart }
    ensures conflict_by_letters { ConflictByLetters }
    ensures conflict_with_another { ConflictWithAnother }
    ensures two_versions { TwoVersions }
    ensures two_files { TwoFiles }
{}

/// Two modules that exclude each other use one variable: whether a start agrees with both decides.
pub fn exclusive_uses()
    ensures set_and_pushed { SetAndPushed }
    ensures delimiters { ExclusiveDelimiters }
    ensures set_or_absent { SetOrAbsent }
    ensures set_and_unset { SetAndUnset }
    ensures unset_and_absent { UnsetAndAbsent }
    ensures two_values { TwoValues }
    ensures two_files { TwoFilesAndValues }
    ensures one_value { OneValue }
{}

/// Modules of which one reads a variable: two reads are compatible, a read and another use clash. A reader's own
/// conflict excludes nothing.
pub fn reads()
    ensures both { BothRead }
    ensures read_and_set { ReadAndSet }
    ensures set_and_read { SetAndRead }
    ensures read_and_path { ReadAndPath }
    ensures absent_and_read { AbsentAndRead }
    ensures reader_in_conflict { ReaderInConflict }
    ensures user_in_conflict { UserInConflict }
    ensures one_name { ReaderOfOneName }
    ensures two_readers { TwoReaders }
    ensures modulepath { ModulepathRead }
    ensures its_own { ReadsItsOwn }
{}

/// Inconsistent modules, and one way: they aren't certified, and keep no other from being so.
pub fn inconsistent_module()
    ensures two_uses { TwoUses }
    ensures two_delimiters { DelimitersInOne }
    ensures two_values { ValuesInOne }
    ensures modulepath_pushed { ModulepathPushed }
    ensures modulepath_parted { ModulepathParted }
    ensures modulepath_extended { ModulepathExtended }
    ensures one_way { OneWay }
{}

/// Why uses clash: a start agrees with those of two modules, the loads and unloads of both are accepted, and the start
/// is lost, or the value of a module that stays. One module with two uses of a variable loses it alone. And no start
/// agrees with two uses that don't agree there.
pub fn clashes_matter()
    ensures delimiters { LoseByDelimiters }
    ensures path_and_stack { LoseByPathAndStack }
    ensures set_and_push { LoseBySetAndPush }
    ensures unset_and_push { LoseByUnsetAndPush }
    ensures both_set { LoseByBothSet }
    ensures set_and_absent { LoseBySetAndAbsent }
    ensures two_uses { SetAndPushLeaveValue }
    ensures starts { StartsAgree }
{
    reversal::examples::uses();
}
