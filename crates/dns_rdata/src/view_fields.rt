//! The fields and the names of a view, one after the other.

ghost use Rattle.std.specs.Prelude.{◌-◌, ℕ, List};
ghost use Rattle.std.specs.Iterator.{at_most, Drains};

use crate::view::RDataRef;
use dns_view::{FieldRef, NameRef};

// No type has more fields.
const MOST_FIELDS: usize = 64;

/// The fields of RDATA in order, lent from the message. Allocates nothing.
///
/// Each is found from the start of the RDATA, as [`RDataRef::field`] finds it, so a name is gone over once more for each field
/// from it on: 15 times in all for the two names of SOA.
#[derive(Drop)]
pub struct Fields<'a> {
    rdata: RDataRef<'a>,
    index: usize,
}

impl<'a> Iterator for Fields<'a> {
    type Item = FieldRef<'a>;

    ghost use Rattle.dns_rdata.specs.ViewFields.{NextField};

    ghost next_gives = { NextField };

    ghost remaining = { λ s. at_most (64 - s.index) };

    #[inline]
    fn next(&mut self) -> Option<FieldRef<'a>> {
        if self.index >= MOST_FIELDS {
            return None;
        }
        let field = self.rdata.field(self.index)?;
        self.index += 1;
        Some(field)
    }
}

/// The names among the fields of RDATA in order, lent from the message. Allocates nothing.
///
/// Each is found from the start of the RDATA, as [`RDataRef::name`] finds it: the two names of SOA are gone over five times in all.
#[derive(Drop)]
pub struct Names<'a> {
    rdata: RDataRef<'a>,
    index: usize,
}

impl<'a> Iterator for Names<'a> {
    type Item = NameRef<'a>;

    ghost use Rattle.dns_rdata.specs.ViewFields.{NextName};

    ghost next_gives = { NextName };

    ghost remaining = { λ s. at_most (64 - s.index) };

    #[inline]
    fn next(&mut self) -> Option<NameRef<'a>> {
        if self.index >= MOST_FIELDS {
            return None;
        }
        let name = self.rdata.name(self.index)?;
        self.index += 1;
        Some(name)
    }
}

impl<'a> RDataRef<'a> {
    ghost use Rattle.dns_types.specs.declared.record_type.RecordType.{RecordType};
    ghost use Rattle.dns_view.specs.declared.{row.field.FieldRef.FieldRef as FieldValue, name.name_ref.NameRef.NameRef as NameValue};
    ghost use Rattle.dns_rdata.specs.{declared.record_data.RData.RData, Data.Fills, Views.IsViewOf};
    ghost use Rattle.dns_rdata.specs.ViewFields.{NextField, NextName, AreFields, AreNames};

    /// The fields in order. Allocates nothing.
    #[inline]
    pub fn fields(&self) -> Fields<'a>
        ensures { (m : List ℕ) (p n : ℕ) (t : RecordType) (v : RData) → IsViewOf m p n t self.now → Fills m p n t v →
            (xs : List FieldValue) → Drains NextField result xs → AreFields m p n v xs }
    {
        Fields {
            rdata: *self,
            index: 0,
        }
    }

    /// The names among the fields, in order. Allocates nothing.
    #[inline]
    pub fn names(&self) -> Names<'a>
        ensures { (m : List ℕ) (p n : ℕ) (t : RecordType) (v : RData) → IsViewOf m p n t self.now → Fills m p n t v →
            (xs : List NameValue) → Drains NextName result xs → AreNames m p v xs }
    {
        Names {
            rdata: *self,
            index: 0,
        }
    }
}
