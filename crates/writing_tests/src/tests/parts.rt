//! Bytes that are typed out in parts.

/// What stands behind these parts in some bytes that begin with them.
pub fn behind<'a>(bytes: &'a [u8], parts: &[&[u8]]) -> Option<&'a [u8]> {
    let mut rest = bytes;
    for part in parts {
        if !rest.starts_with(part) {
            return None;
        }
        rest = rest.get(part.len()..)?;
    }
    Some(rest)
}

/// Whether bytes are these parts.
pub fn are_parts(bytes: &[u8], parts: &[&[u8]]) -> bool {
    matches!(behind(bytes, parts), Some([]))
}
