//! The names in a record.

ghost use Rattle.std.specs.Prelude.{◌≡◌};
ghost use Rattle.std.specs.List.{list_all};
ghost use Rattle.s57_types.specs.Fitness.{is_vector_kind, is_feature_kind, has_good_names};

use s57_types::{End, Kind, Rec, Spot};

/// Whether the record has a name of its own kind, and its pointers name vector records.
pub fn has_good_names(rec: &Rec) -> bool
    ensures { result ≡ has_good_names rec.now }
{
    match rec {
        Rec::V(vector) => {
            is_vector(vector.name.kind) && ends_name_vectors(vector.ends.as_slice())
        }
        Rec::F(feature) => {
            is_feature(feature.name.kind) && places_name_vectors(feature.places.as_slice())
        }
        Rec::H(_) => false,
    }
}

fn is_vector(kind: Kind) -> bool
    ensures { result ≡ is_vector_kind kind }
{
    match kind {
        Kind::Vi | Kind::Vc | Kind::Ve => true,
        Kind::Fe | Kind::Head => false,
    }
}

fn is_feature(kind: Kind) -> bool
    ensures { result ≡ is_feature_kind kind }
{
    match kind {
        Kind::Vi | Kind::Vc | Kind::Ve | Kind::Head => false,
        Kind::Fe => true,
    }
}

fn ends_name_vectors(ends: &[End]) -> bool
    ensures { result ≡ list_all (λ e. is_vector_kind e.to.kind) ends.now }
{
    ends.iter().all(|end| is_vector(end.to.kind))
}

fn places_name_vectors(places: &[Spot]) -> bool
    ensures { result ≡ list_all (λ s. is_vector_kind s.to.kind) places.now }
{
    places.iter().all(|place| is_vector(place.to.kind))
}
