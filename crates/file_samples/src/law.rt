//! The definitions, evaluated: each law is the contract of a function that does nothing.

ghost use Rattle.file_samples.specs.Faults.{EachFaultIsFound, FirstStepCounts, FirstFieldCounts, FirstRecordCounts, OverlappingIsTooLong};
ghost use Rattle.file_samples.specs.Fields.{WideTextsAreRead, WideTextsAreWritten, TextsAreRead, RowsAreRead, RowsAreWritten, FieldFaultsAreAsListed};
ghost use Rattle.file_samples.specs.Frames.{EntryMapsAreRead, FieldsMayOverlap, LeadersAreJudged, DirectoriesAreJudged, FrameFaultsHaveOrder, PlacesDontMatter};
ghost use Rattle.file_samples.specs.Limits.{LengthLimitIsExact, RecordLimitIsExact, LastStepsHaveOrder};
ghost use Rattle.file_samples.specs.SquareFile.{DescriptionsHaveLengths, DescriptiveRecordHasLengths, DescriptiveRecordIsWritten};
ghost use Rattle.file_samples.specs.SquareFile.{FirstNodeIsWritten, SquareIsWritten, SquareHasOffsets, EmptyCellIsWritten, SquareIsRead};
ghost use Rattle.file_samples.specs.SquareFile.{WideNodeIsRead, CutsAreRead, ChangedBytesAreRead, RepeatedRecordIsRead};
ghost use Rattle.file_samples.specs.UnusualFiles.{RecordsMayMix, FieldsMayMix, FieldsJoin};
ghost use Rattle.file_samples.specs.WritableCells.{WritableIsDecided, SamplesAreWritable, OthersAreNot, TooManyIsNot};
ghost use Rattle.file_samples.specs.WrittenFiles.{LevelsAreWritten, CountsAreByClass, NumbersBeginAnew, EveryFieldIsWritten, EveryFieldIsRead};

/// What stands at the begin of small records, or why nothing does.
pub fn frames_are_decided()
    ensures entry_maps { EntryMapsAreRead }
    ensures overlap { FieldsMayOverlap }
    ensures leaders { LeadersAreJudged }
    ensures directories { DirectoriesAreJudged }
    ensures order { FrameFaultsHaveOrder }
    ensures places { PlacesDontMatter }
{}

/// What the bytes of single fields say, or their faults.
pub fn fields_are_read()
    ensures wide { WideTextsAreRead }
    ensures wide_written { WideTextsAreWritten }
    ensures texts { TextsAreRead }
    ensures rows { RowsAreRead }
    ensures rows_written { RowsAreWritten }
    ensures faults { FieldFaultsAreAsListed }
{}

/// The file of one square, byte for byte: its data descriptive record, its head records and its records.
pub fn square_is_written()
    ensures descriptions { DescriptionsHaveLengths }
    ensures lengths { DescriptiveRecordHasLengths }
    ensures descriptive { DescriptiveRecordIsWritten }
    ensures first_node { FirstNodeIsWritten }
    ensures whole { SquareIsWritten }
    ensures offsets { SquareHasOffsets }
    ensures empty { EmptyCellIsWritten }
{}

/// That file is read as the square; cut, or with bytes changed, it has the faults that stand beside it.
pub fn square_is_read()
    ensures whole { SquareIsRead }
    ensures wide_node { WideNodeIsRead }
    ensures cuts { CutsAreRead }
    ensures changed { ChangedBytesAreRead }
    ensures repeated { RepeatedRecordIsRead }
{}

/// Small files with one fault each, and with two, of which the first counts.
pub fn faults_are_found()
    ensures each { EachFaultIsFound }
    ensures steps { FirstStepCounts }
    ensures fields { FirstFieldCounts }
    ensures records { FirstRecordCounts }
    ensures overlap { OverlappingIsTooLong }
{}

/// How long a record may be and how many there may be, and the order of the last steps.
pub fn limits_are_exact()
    ensures length { LengthLimitIsExact }
    ensures count { RecordLimitIsExact }
    ensures order { LastStepsHaveOrder }
{}

/// Good files of unusual form.
pub fn unusual_files_are_read()
    ensures records { RecordsMayMix }
    ensures fields { FieldsMayMix }
    ensures join { FieldsJoin }
{}

/// What is written by lexical level, object class and number, and a cell with every field.
pub fn files_are_written()
    ensures levels { LevelsAreWritten }
    ensures counts { CountsAreByClass }
    ensures numbers { NumbersBeginAnew }
    ensures every_field { EveryFieldIsWritten }
    ensures every_field_read { EveryFieldIsRead }
{}

/// Whether a cell can be written is decided by tests, which say so of the sample cells and not of others.
pub fn cells_are_writable()
    ensures decided { WritableIsDecided }
    ensures good { SamplesAreWritable }
    ensures bad { OthersAreNot }
    ensures count { TooManyIsNot }
{}
