//! What is in memory has the types of its fields.

ghost use Rattle.std.specs.Prelude.{◌≡◌, ◌<◌, ℕ, length};
ghost use Rattle.std.specs.List.{AllByRecursion};
ghost use Rattle.s57_types.specs.FieldRows.{dsid_forms, dsid_row, dspm_forms, dspm_row, frid_forms, frid_row, foid_forms, foid_row, vrid_forms, vrid_row};
ghost use Rattle.s57_types.specs.RecordFields.{dsid_of_head, dspm_of_head};
ghost use Rattle.file_spec.specs.ReadBack.{vrid_of, frid_of};
ghost use Rattle.file_spec.specs.RoundTrip.{HasForms, HasItsTypes, VectorHasForms, FeatureHasForms};

use s57_types::{Attr, Cell, End, Feature, Head, Partner, Rec, Spot, Vector};

/// A value whose numbers fit the subfields that they are written to.
trait Typed {
    /// They do.
    ghost typed: { Self → Type 0 };

    /// A value in memory is so. To show it, it reads the value's numbers.
    fn has_its_types(&self)
        ensures { typed self.now };
}

impl Typed for Attr {
    ghost use Rattle.file_spec.specs.RoundTrip.{AttributeHasForms};

    ghost typed = { AttributeHasForms };

    fn has_its_types(&self) {
        let _code = self.code;
    }
}

impl Typed for End {
    ghost use Rattle.s57_types.specs.FieldRows.{end_forms, end_row};
    ghost use Rattle.file_spec.specs.RoundTrip.{HasForms};

    ghost typed = { λ e. HasForms end_forms (end_row e) };

    fn has_its_types(&self) {
        let _number = self.to.id;
        let _orientation = self.ornt;
        let _usage = self.usag;
        let _topology = self.topi;
        let _masking = self.mask;
    }
}

impl Typed for Spot {
    ghost use Rattle.s57_types.specs.FieldRows.{place_forms, place_row};
    ghost use Rattle.file_spec.specs.RoundTrip.{HasForms};

    ghost typed = { λ s. HasForms place_forms (place_row s) };

    fn has_its_types(&self) {
        let _number = self.to.id;
        let _orientation = self.ornt;
        let _usage = self.usag;
        let _masking = self.mask;
    }
}

impl Typed for (i32, i32) {
    ghost use Rattle.s57_types.specs.FieldRows.{plane_forms, plane_row};
    ghost use Rattle.file_spec.specs.RoundTrip.{HasForms};

    ghost typed = { λ p. HasForms plane_forms (plane_row p) };

    fn has_its_types(&self) {
        let _latitude = self.0;
        let _longitude = self.1;
    }
}

impl Typed for (i32, i32, i32) {
    ghost use Rattle.s57_types.specs.FieldRows.{deep_forms, deep_row};
    ghost use Rattle.file_spec.specs.RoundTrip.{HasForms};

    ghost typed = { λ p. HasForms deep_forms (deep_row p) };

    fn has_its_types(&self) {
        let _latitude = self.0;
        let _longitude = self.1;
        let _depth = self.2;
    }
}

impl Typed for Partner {
    ghost use Rattle.s57_types.specs.FieldRows.{partner_forms, partner_row};
    ghost use Rattle.file_spec.specs.RoundTrip.{HasForms};

    ghost typed = { λ p. HasForms partner_forms (partner_row p) };

    fn has_its_types(&self) {
        let _agency = self.to.agen;
        let _number = self.to.fidn;
        let _subdivision = self.to.fids;
        let _relationship = self.rind;
    }
}

impl Typed for Rec {
    ghost use Rattle.file_spec.specs.RoundTrip.{RecordHasForms};
    ghost use Rattle.std.specs.Prelude.{ℕ};

    ghost typed = { λ rec. (nall : ℕ) → RecordHasForms nall rec };

    fn has_its_types(&self) {
        match self {
            Rec::V(vector) => vector_has_its_types(vector),
            Rec::F(feature) => feature_has_its_types(feature),
            Rec::H(_) => {}
        }
    }
}

/// Each of some values in memory has its types.
fn all_have_their_types<T: Typed>(items: &[T])
    ensures { AllByRecursion T.typed items.now }
{
    for item in items {
        item.has_its_types();
    }
}

fn vector_identifier_has_its_types(vector: &Vector)
    ensures { HasForms vrid_forms (vrid_row (vrid_of vector.now)) }
{
    let _number = vector.name.id;
    let _version = vector.rver;
}

fn vector_has_its_types(vector: &Vector)
    ensures { VectorHasForms vector.now }
{
    vector_identifier_has_its_types(vector);
    all_have_their_types(vector.attrs.as_slice());
    all_have_their_types(vector.ends.as_slice());
    all_have_their_types(vector.plane.as_slice());
    all_have_their_types(vector.deep.as_slice());
}

fn feature_identifier_has_its_types(feature: &Feature)
    ensures identifier { HasForms frid_forms (frid_row (frid_of feature.now)) }
    ensures object { HasForms foid_forms (foid_row feature.now.foid) }
{
    let _number = feature.name.id;
    let _primitive = feature.prim;
    let _group = feature.grup;
    let _class = feature.objl;
    let _version = feature.rver;
    let _agency = feature.foid.agen;
    let _object = feature.foid.fidn;
    let _subdivision = feature.foid.fids;
}

fn feature_has_its_types(feature: &Feature)
    ensures { (nall : ℕ) → FeatureHasForms nall feature.now }
{
    feature_identifier_has_its_types(feature);
    all_have_their_types(feature.attf.as_slice());
    all_have_their_types(feature.natf.as_slice());
    all_have_their_types(feature.partners.as_slice());
    all_have_their_types(feature.places.as_slice());
}

fn dates_have_their_lengths(update: &[u8; 8], issue: &[u8; 8], edition: &[u8; 4])
    ensures { (length update.now ≡ 8) × (length issue.now ≡ 8) × (length edition.now ≡ 4) }
{
    let _lengths = (update.len(), issue.len(), edition.len());
}

fn identification_has_its_types(head: &Head)
    ensures { HasForms dsid_forms (dsid_row (dsid_of_head head.now)) }
{
    let _number = head.dsid_rcid;
    let _usage = head.intu;
    dates_have_their_lengths(&head.uadt, &head.isdt, &head.sted);
    let _specification = head.prsp;
    let _profile = head.prof;
    let _agency = head.agen;
}

fn units_are_bytes(head: &Head)
    ensures { (head.now.duni < 256) × (head.now.huni < 256) × (head.now.puni < 256) × (head.now.coun < 256) }
{
    let _depth = head.duni;
    let _height = head.huni;
    let _accuracy = head.puni;
    let _coordinate = head.coun;
}

fn parameters_have_their_types(head: &Head)
    ensures { HasForms dspm_forms (dspm_row (dspm_of_head head.now)) }
{
    let _number = head.dspm_rcid;
    let _horizontal = head.hdat;
    let _vertical = head.vdat;
    let _sounding = head.sdat;
    let _scale = head.cscl;
    let _coordinate_factor = head.comf;
    let _sounding_factor = head.somf;
    units_are_bytes(head);
}

/// A cell in memory has numbers that fit their types, and dates and editions of their length. To show it, it reads the cell's numbers.
pub fn cell_has_its_types(cell: &Cell)
    ensures { HasItsTypes cell.now }
{
    identification_has_its_types(&cell.head);
    parameters_have_their_types(&cell.head);
    all_have_their_types(cell.vi.as_slice());
    all_have_their_types(cell.vc.as_slice());
    all_have_their_types(cell.ve.as_slice());
    all_have_their_types(cell.fe.as_slice());
}
