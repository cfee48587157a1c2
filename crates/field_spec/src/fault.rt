//! Why the bytes of a field say nothing.

/// The first fault of a field.
#[derive(Clone, Copy, Debug, PartialEq, Eq)]
pub enum FieldFault {
    /// The bytes aren't the field's subfields or whole rows and its terminator, or a number is none that the field
    /// may have.
    BadField,
    /// A control byte of the format stands in a text.
    BadText,
}
