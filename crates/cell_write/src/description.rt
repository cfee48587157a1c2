//! The data descriptive record: which fields a record may have, how their subfields are called and which formats they have
//! (ISO/IEC 8211; S-57 Part 3, 7.2.2, 7.3 to 7.7 and Annex A).

ghost use Rattle.std.specs.Prelude.{◌≡◌, ◌++◌, map, IfOk, OnOk};
ghost use Rattle.file_spec.specs.DescriptiveRecord.{control_field, descriptive_fields, level_controls};
ghost use Rattle.cell_write.specs.Described.{described_field, level_of};
ghost use Rattle.frame_write.specs.OutFields.{field_of, fields_of};

use frame_write::OutField;
use std::alloc::{AllocError, Global};

const UNIT_TERMINATOR: u8 = 0x1f;

const FIELD_TERMINATOR: u8 = 0x1e;

/// The file control field: its controls, no title, and which field stands under which in the tree of a record's fields.
const CONTROL_FIELD: &[u8] =
    b"0000;&   \x1f0001DSIDDSIDDSSI0001DSPM0001FRIDFRIDFOIDFRIDATTFFRIDNATFFRIDFFPTFRIDFSPT0001VRIDVRIDATTVVRIDVRPTVRIDSG2DVRIDSG3D\x1e";

/// Which texts a field has, by their lexical level.
#[derive(Clone, Copy)]
enum Texts {
    /// At level 0.
    Plain,
    /// Attributes, at the level AALL.
    Attributes,
    /// National attributes, at the level NALL.
    NationalAttributes,
}

/// How a field is described: its tag, its field controls, the level of its texts, its name, the labels of its subfields,
/// of which those of rows begin with a star, and their formats.
#[derive(Clone, Copy)]
struct Description {
    tag: [u8; 4],
    controls: &'static [u8],
    texts: Texts,
    name: &'static [u8],
    labels: &'static [u8],
    formats: &'static [u8],
}

/// A field of one number.
const ONE_NUMBER: &[u8] = b"0500;&";

/// A field of one row of subfields.
const ONE_ROW: &[u8] = b"1600;&";

/// A field of rows.
const ROWS: &[u8] = b"2600;&";

/// The fields that records may have.
const DESCRIPTIONS: [Description; 15] = [
    Description {
        tag: *b"0001",
        controls: ONE_NUMBER,
        texts: Texts::Plain,
        name: b"ISO 8211 Record Identifier",
        labels: b"",
        formats: b"(b12)",
    },
    Description {
        tag: *b"DSID",
        controls: ONE_ROW,
        texts: Texts::Plain,
        name: b"Data set identification field",
        labels: b"RCNM!RCID!EXPP!INTU!DSNM!EDTN!UPDN!UADT!ISDT!STED!PRSP!PSDN!PRED!PROF!AGEN!COMT",
        formats: b"(b11,b14,2b11,3A,2A(8),R(4),b11,2A,b11,b12,A)",
    },
    Description {
        tag: *b"DSSI",
        controls: ONE_ROW,
        texts: Texts::Plain,
        name: b"Data set structure information field",
        labels: b"DSTR!AALL!NALL!NOMR!NOCR!NOGR!NOLR!NOIN!NOCN!NOED!NOFA",
        formats: b"(3b11,8b14)",
    },
    Description {
        tag: *b"DSPM",
        controls: ONE_ROW,
        texts: Texts::Plain,
        name: b"Data set parameter field",
        labels: b"RCNM!RCID!HDAT!VDAT!SDAT!CSCL!DUNI!HUNI!PUNI!COUN!COMF!SOMF!COMT",
        formats: b"(b11,b14,3b11,b14,4b11,2b14,A)",
    },
    Description {
        tag: *b"FRID",
        controls: ONE_ROW,
        texts: Texts::Plain,
        name: b"Feature record identifier field",
        labels: b"RCNM!RCID!PRIM!GRUP!OBJL!RVER!RUIN",
        formats: b"(b11,b14,2b11,2b12,b11)",
    },
    Description {
        tag: *b"FOID",
        controls: ONE_ROW,
        texts: Texts::Plain,
        name: b"Feature object identifier field",
        labels: b"AGEN!FIDN!FIDS",
        formats: b"(b12,b14,b12)",
    },
    Description {
        tag: *b"ATTF",
        controls: ROWS,
        texts: Texts::Attributes,
        name: b"Feature record attribute field",
        labels: b"*ATTL!ATVL",
        formats: b"(b12,A)",
    },
    Description {
        tag: *b"NATF",
        controls: ROWS,
        texts: Texts::NationalAttributes,
        name: b"Feature record national attribute field",
        labels: b"*ATTL!ATVL",
        formats: b"(b12,A)",
    },
    Description {
        tag: *b"FFPT",
        controls: ROWS,
        texts: Texts::Plain,
        name: b"Feature record to feature object pointer field",
        labels: b"*LNAM!RIND!COMT",
        formats: b"(B(64),b11,A)",
    },
    Description {
        tag: *b"FSPT",
        controls: ROWS,
        texts: Texts::Plain,
        name: b"Feature record to spatial record pointer field",
        labels: b"*NAME!ORNT!USAG!MASK",
        formats: b"(B(40),3b11)",
    },
    Description {
        tag: *b"VRID",
        controls: ONE_ROW,
        texts: Texts::Plain,
        name: b"Vector record identifier field",
        labels: b"RCNM!RCID!RVER!RUIN",
        formats: b"(b11,b14,b12,b11)",
    },
    Description {
        tag: *b"ATTV",
        controls: ROWS,
        texts: Texts::Plain,
        name: b"Vector record attribute field",
        labels: b"*ATTL!ATVL",
        formats: b"(b12,A)",
    },
    Description {
        tag: *b"VRPT",
        controls: ROWS,
        texts: Texts::Plain,
        name: b"Vector record pointer field",
        labels: b"*NAME!ORNT!USAG!TOPI!MASK",
        formats: b"(B(40),4b11)",
    },
    Description {
        tag: *b"SG2D",
        controls: ROWS,
        texts: Texts::Plain,
        name: b"2-D coordinate field",
        labels: b"*YCOO!XCOO",
        formats: b"(2b24)",
    },
    Description {
        tag: *b"SG3D",
        controls: ROWS,
        texts: Texts::Plain,
        name: b"3-D coordinate (sounding array) field",
        labels: b"*YCOO!XCOO!VE3D",
        formats: b"(3b24)",
    },
];

/// The lexical level of these texts.
fn level_of(texts: Texts, aall: u8, nall: u8) -> u8
    ensures { result ≡ level_of aall nall texts }
{
    match texts {
        Texts::Plain => 0,
        Texts::Attributes => aall,
        Texts::NationalAttributes => nall,
    }
}

/// The escape sequence of a lexical level, without its first byte.
fn level_controls(level: u8) -> &'static [u8]
    ensures { result.now ≡ level_controls level }
{
    match level {
        2 => b"%/A",
        1 => b"-A ",
        _ => b"   ",
    }
}

/// The field that says this description, at the levels AALL and NALL.
fn described_field(
    alloc: Global,
    description: &Description,
    aall: u8,
    nall: u8,
) -> Result<OutField, AllocError>
    ensures { IfOk result (λ field. field_of field ≡ described_field aall nall description.now) }
{
    let mut bytes = Vec::from_slice(alloc, description.controls)?;
    bytes.extend_from_slice(level_controls(level_of(description.texts, aall, nall)))?;
    bytes.extend_from_slice(description.name)?;
    bytes.push(UNIT_TERMINATOR)?;
    bytes.extend_from_slice(description.labels)?;
    bytes.push(UNIT_TERMINATOR)?;
    bytes.extend_from_slice(description.formats)?;
    bytes.push(FIELD_TERMINATOR)?;
    Ok(OutField {
        tag: description.tag,
        bytes,
    })
}

/// The file control field.
fn control_field(alloc: Global) -> Result<OutField, AllocError>
    ensures { IfOk result (λ field. field_of field ≡ control_field) }
{
    Ok(OutField {
        tag: *b"0000",
        bytes: Vec::from_slice(alloc, CONTROL_FIELD)?,
    })
}

/// Appends the fields that say these descriptions.
fn push_descriptions(
    alloc: Global,
    descriptions: &[Description],
    aall: u8,
    nall: u8,
    fields: &mut Vec<OutField>,
) -> Result<(), AllocError>
    ensures { OnOk result (fields_of fields.new.items ≡ fields_of fields.old.items ++ map (described_field aall nall) descriptions.now) }
{
    for description in descriptions {
        fields.push(described_field(alloc, description, aall, nall)?)?;
    }
    Ok(())
}

/// The fields of the data descriptive record, at the levels AALL and NALL.
pub fn descriptive_fields(alloc: Global, aall: u8, nall: u8) -> Result<Vec<OutField>, AllocError>
    ensures { IfOk result (λ fields. fields_of fields.items ≡ descriptive_fields aall nall) }
{
    let mut fields = Vec::new(alloc);
    fields.push(control_field(alloc)?)?;
    push_descriptions(alloc, &DESCRIPTIONS, aall, nall, &mut fields)?;
    Ok(fields)
}
