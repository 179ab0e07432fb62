//! The names of fields.

ghost use Rattle.std.specs.Prelude.{◌≡◌, ℕ, ◌<◌, IfSome, IfNone};
ghost use Rattle.dns_zone_rows.specs.{RowFaults.name_of, RowTexts.IsFirstOf, RowTexts.HasFieldAt, RowTexts.texts_of_field};

use crate::zone_row::{ZoneField, ZoneRow};

impl ZoneField {
    /// The field's name, as errors have it: `MX preference`.
    pub fn name(&self) -> &'static str
        ensures first { IsFirstOf result.now (texts_of_field self.now) }
        ensures name { result ≡ name_of self.now }
    {
        match self {
            ZoneField::U8(field)
            | ZoneField::U16(field)
            | ZoneField::U32(field)
            | ZoneField::Ttl(field)
            | ZoneField::Ipv4(field)
            | ZoneField::Ipv6(field)
            | ZoneField::Tag(field)
            | ZoneField::CertType(field)
            | ZoneField::Algorithm(field)
            | ZoneField::RawText(field)
            | ZoneField::QuotedText(field)
            | ZoneField::Type(field)
            | ZoneField::Scheme(field)
            | ZoneField::Time(field)
            | ZoneField::Salt(field)
            | ZoneField::Base32(field)
            | ZoneField::Groups(field)
            | ZoneField::Eui48(field)
            | ZoneField::Eui64(field)
            | ZoneField::Digits(field) => field.name,
            ZoneField::Name(field) => field.name,
            ZoneField::String(field) => field.name,
        }
    }
}

impl ZoneRow {
    /// The index of the first field of one token that has this name.
    pub fn field_index(&self, name: &str) -> Option<usize>
        ensures some { IfSome result (HasFieldAt self.now name.now) }
        ensures first { IfSome result (λ index. (k : ℕ) → k < index → HasFieldAt self.now name.now k → ⊥) }
        ensures none { IfNone result ((k : ℕ) → HasFieldAt self.now name.now k → ⊥) }
    {
        let fields = self.fields;
        for index in 0..fields.len() {
            if fields[index].name() == name {
                return Some(index);
            }
        }
        None
    }
}
