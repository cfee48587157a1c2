//! What is written is read.

ghost use Rattle.frame_spec.specs.WrittenRecord.{WrittenHasLength, WrittenIsRead};

/// A record that is written takes as many bytes as the lengths of its fields say, and where its bytes stand, the record
/// stands.
pub fn written_record_is_read()
    ensures length { WrittenHasLength }
    ensures read { WrittenIsRead }
{}
