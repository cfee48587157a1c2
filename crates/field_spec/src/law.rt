//! Laws of the definitions, each the contract of a function that does nothing.

ghost use Rattle.std.specs.Prelude.{◌≡◌, ◌↔◌, ◌<◌, ◌≤◌, ◌^◌, ℕ, ℤ, List, Some, Ok, true, All, map};
ghost use Rattle.std.specs.List.{list_all, AllByRecursion};
ghost use Rattle.s57_types.specs.Subfield.{Form, Subfield};
ghost use Rattle.s57_types.specs.FieldRows.{dsid_forms, dssi_forms, dspm_forms, frid_forms, foid_forms, attribute_forms, partner_forms, place_forms};
ghost use Rattle.s57_types.specs.FieldRows.{vrid_forms, end_forms, plane_forms, deep_forms, number_forms, number_row, dsid_row, dssi_row, dspm_row};
ghost use Rattle.s57_types.specs.FieldRows.{frid_row, foid_row, attribute_row, partner_row, place_row, vrid_row, end_row, plane_row, deep_row};
ghost use Rattle.s57_types.specs.Fitness.{is_vector_kind};
ghost use Rattle.s57_types.specs.declared.name.Lnam.{Lnam};
ghost use Rattle.s57_types.specs.declared.record.Attr.{Attr};
ghost use Rattle.s57_types.specs.declared.record.End.{End};
ghost use Rattle.s57_types.specs.declared.record.Spot.{Spot};
ghost use Rattle.s57_types.specs.declared.record.Partner.{Partner};
ghost use Rattle.s57_types.specs.declared.field.Dsid.{Dsid};
ghost use Rattle.s57_types.specs.declared.field.Dssi.{Dssi};
ghost use Rattle.s57_types.specs.declared.field.Dspm.{Dspm};
ghost use Rattle.s57_types.specs.declared.field.Frid.{Frid};
ghost use Rattle.s57_types.specs.declared.field.Vrid.{Vrid};
ghost use Rattle.field_spec.specs.Cutting.{field_row, field_rows};
ghost use Rattle.field_spec.specs.FieldContent.{IsField, IsFieldOfRows};
ghost use Rattle.field_spec.specs.FieldBytes.{field_bytes, rows_bytes};
ghost use Rattle.field_spec.specs.FieldFit.{CanRepeat, IsFit};
ghost use Rattle.field_spec.specs.Spelling.{SpellsRow, SpellsRows};
ghost use Rattle.field_spec.specs.Contents.{number_content, dsid_content, dssi_content, dspm_content, frid_content, foid_content, attribute_content};
ghost use Rattle.field_spec.specs.Contents.{partner_content, place_content, vrid_content, end_content, plane_content, deep_content};

/// The bytes of a field are its subfields and its terminator exactly where they are cut into these subfields.
pub fn field_is_decided()
    ensures row { (forms : List Form) (bytes : List ℕ) (row : List Subfield) → All (λ b. b < 256) bytes →
        (IsField forms bytes row ↔ (field_row forms bytes ≡ Some row)) }
    ensures rows { (level : ℕ) (forms : List Form) (bytes : List ℕ) (rows : List (List Subfield)) → CanRepeat level forms → All (λ b. b < 256) bytes →
        (IsFieldOfRows level forms bytes rows ↔ (field_rows level forms bytes ≡ Some rows)) }
{}

/// The fields whose row repeats can be cut into their rows, attributes at each level.
pub fn repeating_fields()
    ensures attributes { (level : ℕ) → CanRepeat level (attribute_forms level) }
    ensures partners { CanRepeat 0 partner_forms }
    ensures places { CanRepeat 0 place_forms }
    ensures ends { CanRepeat 0 end_forms }
    ensures plane { CanRepeat 0 plane_forms }
    ensures deep { CanRepeat 0 deep_forms }
{}

/// A field of one row is read as a value exactly where its bytes spell that value; of lexical levels those that there are, and of
/// names those of vector records.
pub fn values_are_decided()
    ensures number { (b : List ℕ) (n : ℕ) → All (λ c. c < 256) b → (number_content b ≡ Ok n ↔ SpellsRow number_forms (number_row n) b) }
    ensures dsid { (b : List ℕ) (d : Dsid) → All (λ c. c < 256) b → (dsid_content b ≡ Ok d ↔ SpellsRow dsid_forms (dsid_row d) b) }
    ensures dssi { (b : List ℕ) (d : Dssi) → All (λ c. c < 256) b
        → (dssi_content b ≡ Ok d ↔ (SpellsRow dssi_forms (dssi_row d) b × ((d.aall ≤ 1) × (d.nall ≤ 2)))) }
    ensures dspm { (b : List ℕ) (d : Dspm) → All (λ c. c < 256) b → (dspm_content b ≡ Ok d ↔ SpellsRow dspm_forms (dspm_row d) b) }
    ensures frid { (b : List ℕ) (d : Frid) → All (λ c. c < 256) b → (frid_content b ≡ Ok d ↔ SpellsRow frid_forms (frid_row d) b) }
    ensures foid { (b : List ℕ) (d : Lnam) → All (λ c. c < 256) b → (foid_content b ≡ Ok d ↔ SpellsRow foid_forms (foid_row d) b) }
    ensures vrid { (b : List ℕ) (d : Vrid) → All (λ c. c < 256) b →
        (vrid_content b ≡ Ok d ↔ (SpellsRow vrid_forms (vrid_row d) b × (is_vector_kind d.name.kind ≡ true))) }
{}

/// A field whose row repeats is read as a list of values exactly where its bytes spell these values, at each lexical level of
/// attributes; of names those of vector records.
pub fn lists_of_values_are_decided()
    ensures attributes { (level : ℕ) (b : List ℕ) (attrs : List Attr) → All (λ c. c < 256) b →
        (attribute_content level b ≡ Ok attrs ↔ SpellsRows level (attribute_forms level) (map (attribute_row level) attrs) b) }
    ensures partners { (b : List ℕ) (partners : List Partner) → All (λ c. c < 256) b →
        (partner_content b ≡ Ok partners ↔ SpellsRows 0 partner_forms (map partner_row partners) b) }
    ensures places { (b : List ℕ) (places : List Spot) → All (λ c. c < 256) b →
        (place_content b ≡ Ok places ↔ (SpellsRows 0 place_forms (map place_row places) b × AllByRecursion (λ s. is_vector_kind s.to.kind ≡ true) places)) }
    ensures ends { (b : List ℕ) (ends : List End) → All (λ c. c < 256) b →
        (end_content b ≡ Ok ends ↔ (SpellsRows 0 end_forms (map end_row ends) b × AllByRecursion (λ e. is_vector_kind e.to.kind ≡ true) ends)) }
    ensures plane { (b : List ℕ) (points : List (ℤ × ℤ)) → All (λ c. c < 256) b →
        (plane_content b ≡ Ok points ↔ SpellsRows 0 plane_forms (map plane_row points) b) }
    ensures deep { (b : List ℕ) (soundings : List (ℤ × ℤ × ℤ)) → All (λ c. c < 256) b →
        (deep_content b ≡ Ok soundings ↔ SpellsRows 0 deep_forms (map deep_row soundings) b) }
{}

/// A field of one row that was written is read as its value.
pub fn rows_read_back()
    ensures number { (n : ℕ) → n < 256 ^ 2 → number_content (field_bytes (number_row n)) ≡ Ok n }
    ensures dsid { (d : Dsid) → IsFit dsid_forms (dsid_row d) → dsid_content (field_bytes (dsid_row d)) ≡ Ok d }
    ensures dssi { (d : Dssi) → IsFit dssi_forms (dssi_row d) → d.aall ≤ 1 → d.nall ≤ 2 → dssi_content (field_bytes (dssi_row d)) ≡ Ok d }
    ensures dspm { (d : Dspm) → IsFit dspm_forms (dspm_row d) → dspm_content (field_bytes (dspm_row d)) ≡ Ok d }
    ensures frid { (d : Frid) → IsFit frid_forms (frid_row d) → frid_content (field_bytes (frid_row d)) ≡ Ok d }
    ensures foid { (d : Lnam) → IsFit foid_forms (foid_row d) → foid_content (field_bytes (foid_row d)) ≡ Ok d }
    ensures vrid { (d : Vrid) → IsFit vrid_forms (vrid_row d) → is_vector_kind d.name.kind ≡ true → vrid_content (field_bytes (vrid_row d)) ≡ Ok d }
{}

/// A field whose row repeats is read as the values that were written, also where there are none.
pub fn repeating_rows_read_back()
    ensures attributes { (level : ℕ) (attrs : List Attr) → AllByRecursion (λ a. IsFit (attribute_forms level) (attribute_row level a)) attrs →
        attribute_content level (rows_bytes level (attribute_row level) attrs) ≡ Ok attrs }
    ensures partners { (partners : List Partner) → AllByRecursion (λ p. IsFit partner_forms (partner_row p)) partners →
        partner_content (rows_bytes 0 partner_row partners) ≡ Ok partners }
    ensures places { (places : List Spot) → AllByRecursion (λ s. IsFit place_forms (place_row s)) places →
        list_all (λ s. is_vector_kind s.to.kind) places ≡ true → place_content (rows_bytes 0 place_row places) ≡ Ok places }
    ensures ends { (ends : List End) → AllByRecursion (λ e. IsFit end_forms (end_row e)) ends →
        list_all (λ e. is_vector_kind e.to.kind) ends ≡ true → end_content (rows_bytes 0 end_row ends) ≡ Ok ends }
    ensures plane { (points : List (ℤ × ℤ)) → AllByRecursion (λ p. IsFit plane_forms (plane_row p)) points →
        plane_content (rows_bytes 0 plane_row points) ≡ Ok points }
    ensures deep { (soundings : List (ℤ × ℤ × ℤ)) → AllByRecursion (λ p. IsFit deep_forms (deep_row p)) soundings →
        deep_content (rows_bytes 0 deep_row soundings) ≡ Ok soundings }
{}
