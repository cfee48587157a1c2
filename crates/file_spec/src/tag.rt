//! The fields and the records of a cell file.

/// A field of a cell file, by its tag (S-57 Part 3, 7.1).
#[derive(Clone, Copy, Debug, PartialEq, Eq)]
pub enum FieldTag {
    /// 0001, the record identifier of ISO/IEC 8211.
    RecordNumber,
    Dsid,
    Dssi,
    Dspm,
    Frid,
    Foid,
    Attf,
    Natf,
    Ffpt,
    Fspt,
    Vrid,
    Attv,
    Vrpt,
    Sg2d,
    Sg3d,
}

/// A data record of a cell file, by the fields that it may have (S-57 Part 3, 7.3, 7.6 and 7.7).
#[derive(Clone, Copy, Debug, PartialEq, Eq)]
pub enum RecordType {
    /// The data set general information record: DSID and DSSI.
    GeneralInformation,
    /// The data set geographic reference record: DSPM.
    GeographicReference,
    /// A vector record: VRID and its fields.
    Vector,
    /// A feature record: FRID and its fields.
    Feature,
}
