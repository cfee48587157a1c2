//! Which features are areas of Group 1, and which of data coverage.

ghost use Rattle.std.specs.Prelude.{◌≡◌, ◌==◌, [], ◌∷◌};
ghost use Rattle.std.specs.List.{list_any};
ghost use Rattle.rule_spec.specs.Features.{is_coverage_area as covers, is_group1_area as spec_group1, is_one_of, says_covered as covered};

use crate::codes::AREA;
use s57_types::{Attr, Feature};

/// The object class M_COVR.
const COVERAGE_CLASS: u16 = 302;

/// The attribute CATCOV, and its value where coverage is available.
const CATCOV: u16 = 18;

const AVAILABLE: u8 = b'1';

/// Whether an object class is one of Group 1: DEPARE, DRGARE, FLODOC, HULKES, LNDARE, PONTON or UNSARE.
fn is_group1_class(objl: u16) -> bool
    ensures { result ≡ is_one_of (42 ∷ 46 ∷ 57 ∷ 65 ∷ 71 ∷ 95 ∷ 154 ∷ []) objl }
{
    matches!(objl, 42 | 46 | 57 | 65 | 71 | 95 | 154)
}

/// Whether a feature is an area of Group 1, the skin of the earth (S-57 Appendix B.1, 3.10.1): an area of DEPARE, DRGARE,
/// FLODOC, HULKES, LNDARE, PONTON or UNSARE. Its own group GRUP isn't asked.
pub fn is_group1_area(feature: &Feature) -> bool
    ensures { result ≡ spec_group1 feature.now }
{
    feature.prim == AREA && is_group1_class(feature.objl)
}

fn holds_available(value: &[u8]) -> bool
    ensures { result ≡ list_any (λ byte. byte == 49) value.now }
{
    for byte in value {
        if *byte == AVAILABLE {
            return true;
        }
    }
    false
}

/// Whether an attribute is CATCOV 1.
fn says_covered(attr: &Attr) -> bool
    ensures { result ≡ covered attr.now }
{
    attr.code == CATCOV && attr.value.len() == 1 && holds_available(attr.value.as_slice())
}

fn one_says_covered(attrs: &[Attr]) -> bool
    ensures { result ≡ list_any covered attrs.now }
{
    for attr in attrs {
        if says_covered(attr) {
            return true;
        }
    }
    false
}

/// Whether a feature is an area of data coverage (M_COVR) that says that its data is there.
pub fn is_coverage_area(feature: &Feature) -> bool
    ensures { result ≡ covers feature.now }
{
    feature.prim == AREA
        && feature.objl == COVERAGE_CLASS
        && one_says_covered(feature.attf.as_slice())
}
