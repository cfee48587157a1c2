//! Whether attributes are the same.

ghost use Rattle.std.specs.Prelude.{◌≡◌};
ghost use Rattle.topo_ops.specs.Attributes.{same_attribute as are_same, same_attributes as all_same};

use s57_types::Attr;

/// Whether two attributes have the same code ATTL and the same value ATVL.
fn same_attribute(a: &Attr, b: &Attr) -> bool
    ensures { result ≡ are_same a.now b.now }
{
    let same_value = a.value.as_slice() == b.value.as_slice();
    a.code == b.code && same_value
}

/// Whether two lists have the same attributes in the same order.
pub(crate) fn same_attributes(a: &[Attr], b: &[Attr]) -> bool
    ensures { result ≡ all_same a.now b.now }
{
    if a.len() != b.len() {
        return false;
    }
    for (k, attr) in a.iter().enumerate() {
        if !same_attribute(attr, &b[k]) {
            return false;
        }
    }
    true
}
