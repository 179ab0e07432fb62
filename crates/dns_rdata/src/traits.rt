//! What RDATA of all types has in common.

ghost use Rattle.std.specs.Prelude.{◌≡◌, ◌↔◌, IsTrue, IfOk, IfErr, Option, Some, None, option_copied};
ghost use Rattle.std.proofs.Common.{rules};
ghost use Rattle.dns_types.specs.declared.record_type.RecordType.{RecordType as RecordTypeValue};
ghost use Rattle.dns_types.specs.declared.record_type.RecordType.TheVariants as types;
ghost use Rattle.dns_rdata.specs.{declared.record_data.RData.RData as Data, Data.type_of, Laws.HoldsOnly, Laws.IsUpdate, Laws.VariantOf};
ghost use Rattle.dns_rdata.specs.declared.record_data.RData.TheVariants as rdata;

use crate::record_data::RData;
use crate::{
    A, AAAA, ANAME, CAA, CERT, CNAME, CSYNC, HINFO, HTTPS, MX, NAPTR, NS, NULL, OPENPGPKEY, OPT,
    PTR, SMIMEA, SOA, SRV, SSHFP, SVCB, TLSA, TXT,
};
use dns_names_wire::RecordType;

/// The data of records of one kind, as a part of [`RData`].
pub trait RecordData: Sized {
    /// The value that holds this data.
    ghost wrapped: { Self → Data };

    /// The data of this kind in a value, where it has that.
    ghost borrowed: { Data → Option Self };

    /// The data of this kind that the value holds; `None` if it holds other data.
    fn try_borrow(rdata: &RData) -> Option<&Self>
        ensures { option_copied result ≡ borrowed rdata.now };

    /// The type of the record that has this data.
    fn record_type(&self) -> RecordType
        ensures { result ≡ type_of (wrapped self.now) };

    /// The value that holds this data.
    fn into_rdata(self) -> RData
        ensures { result ≡ wrapped self };

    /// The data of this kind, moved out of the value that holds it. A value that holds other data comes back as it is.
    /// Allocates nothing.
    fn from_rdata(rdata: RData) -> Result<Self, RData>
        ensures found { IfOk result (λ x. borrowed rdata ≡ Some x) }
        ensures other { IfErr result (λ v. (v ≡ rdata) × (borrowed rdata ≡ None)) };

    /// Whether it is the data of an update (RFC 2136): of `RData::Update0` alone.
    fn is_update(&self) -> bool
        ensures { IsTrue result ↔ IsUpdate (wrapped self.now) };

    /// It is lent exactly if the value is the one that holds it.
    ghost exactly: { (v : Data) (x : Self) → (borrowed v ≡ Some x) ↔ (wrapped x ≡ v) };
}

// A record that has a variant of its own.
pub(crate) trait Variant: Sized {
    /// The type of a record that has this data.
    const TYPE: RecordType;

    ghost TYPE: { RecordTypeValue };

    /// The values that hold such a record.
    ghost variant: { VariantOf Self };

    /// The record that the value holds; none where it holds other data.
    fn held_in(rdata: &RData) -> Option<&Self>
        ensures { option_copied result ≡ variant.borrowed rdata.now };

    /// The record, moved out of the value that holds it; other values as they are.
    fn moved_from(rdata: RData) -> Result<Self, RData>
        ensures found { IfOk result (λ x. variant.borrowed rdata ≡ Some x) }
        ensures other { IfErr result (λ v. (v ≡ rdata) × (variant.borrowed rdata ≡ None)) };

    /// The value that holds the record.
    fn in_value(self) -> RData
        ensures { result ≡ variant.wrapped self };

    /// What holds of these values.
    ghost holds: { HoldsOnly variant TYPE };
}

impl<T: Variant> RecordData for T {
    ghost wrapped = { T.variant.wrapped };

    ghost borrowed = { T.variant.borrowed };

    ghost exactly = { T.holds.exactly };

    fn try_borrow(rdata: &RData) -> Option<&T> {
        T::held_in(rdata)
    }

    fn record_type(&self) -> RecordType {
        T::TYPE
    }

    fn into_rdata(self) -> RData {
        self.in_value()
    }

    fn from_rdata(rdata: RData) -> Result<T, RData> {
        T::moved_from(rdata)
    }

    fn is_update(&self) -> bool {
        false
    }
}

impl<T: Variant> From<T> for RData {
    ghost from_gives = { λ x v. v ≡ T.variant.wrapped x };

    /// The value that holds this record.
    #[inline]
    fn from(record_data: T) -> RData {
        record_data.in_value()
    }
}

// The record in the value, if it is of the type.
macro_rules! held {
    ($rdata:expr, $record:ident) => {
        match $rdata {
            RData::$record(data) => Some(data),
            _ => None,
        }
    };
}

// The same, but moved out of the value.
macro_rules! moved {
    ($rdata:expr, $record:ident) => {
        match $rdata {
            RData::$record(data) => Ok(data),
            other => Err(other),
        }
    };
}

impl Variant for A {
    const TYPE: RecordType = RecordType::A;

    ghost TYPE = { types.A };

    ghost variant = { record { wrapped = λ x. rdata.A x; borrowed = elim [ rdata.A x ↦ Some x | v ↦ None ] } };

    ghost holds = { Prim.search rules };

    fn held_in(rdata: &RData) -> Option<&A> {
        held!(rdata, A)
    }

    fn moved_from(rdata: RData) -> Result<A, RData> {
        moved!(rdata, A)
    }

    fn in_value(self) -> RData {
        RData::A(self)
    }
}

impl Variant for AAAA {
    const TYPE: RecordType = RecordType::AAAA;

    ghost TYPE = { types.AAAA };

    ghost variant = { record { wrapped = λ x. rdata.AAAA x; borrowed = elim [ rdata.AAAA x ↦ Some x | v ↦ None ] } };

    ghost holds = { Prim.search rules };

    fn held_in(rdata: &RData) -> Option<&AAAA> {
        held!(rdata, AAAA)
    }

    fn moved_from(rdata: RData) -> Result<AAAA, RData> {
        moved!(rdata, AAAA)
    }

    fn in_value(self) -> RData {
        RData::AAAA(self)
    }
}

impl Variant for ANAME {
    const TYPE: RecordType = RecordType::ANAME;

    ghost TYPE = { types.ANAME };

    ghost variant = { record { wrapped = λ x. rdata.ANAME x; borrowed = elim [ rdata.ANAME x ↦ Some x | v ↦ None ] } };

    ghost holds = { Prim.search rules };

    fn held_in(rdata: &RData) -> Option<&ANAME> {
        held!(rdata, ANAME)
    }

    fn moved_from(rdata: RData) -> Result<ANAME, RData> {
        moved!(rdata, ANAME)
    }

    fn in_value(self) -> RData {
        RData::ANAME(self)
    }
}

impl Variant for CAA {
    const TYPE: RecordType = RecordType::CAA;

    ghost TYPE = { types.CAA };

    ghost variant = { record { wrapped = λ x. rdata.CAA x; borrowed = elim [ rdata.CAA x ↦ Some x | v ↦ None ] } };

    ghost holds = { Prim.search rules };

    fn held_in(rdata: &RData) -> Option<&CAA> {
        held!(rdata, CAA)
    }

    fn moved_from(rdata: RData) -> Result<CAA, RData> {
        moved!(rdata, CAA)
    }

    fn in_value(self) -> RData {
        RData::CAA(self)
    }
}

impl Variant for CERT {
    const TYPE: RecordType = RecordType::CERT;

    ghost TYPE = { types.CERT };

    ghost variant = { record { wrapped = λ x. rdata.CERT x; borrowed = elim [ rdata.CERT x ↦ Some x | v ↦ None ] } };

    ghost holds = { Prim.search rules };

    fn held_in(rdata: &RData) -> Option<&CERT> {
        held!(rdata, CERT)
    }

    fn moved_from(rdata: RData) -> Result<CERT, RData> {
        moved!(rdata, CERT)
    }

    fn in_value(self) -> RData {
        RData::CERT(self)
    }
}

impl Variant for CNAME {
    const TYPE: RecordType = RecordType::CNAME;

    ghost TYPE = { types.CNAME };

    ghost variant = { record { wrapped = λ x. rdata.CNAME x; borrowed = elim [ rdata.CNAME x ↦ Some x | v ↦ None ] } };

    ghost holds = { Prim.search rules };

    fn held_in(rdata: &RData) -> Option<&CNAME> {
        held!(rdata, CNAME)
    }

    fn moved_from(rdata: RData) -> Result<CNAME, RData> {
        moved!(rdata, CNAME)
    }

    fn in_value(self) -> RData {
        RData::CNAME(self)
    }
}

impl Variant for CSYNC {
    const TYPE: RecordType = RecordType::CSYNC;

    ghost TYPE = { types.CSYNC };

    ghost variant = { record { wrapped = λ x. rdata.CSYNC x; borrowed = elim [ rdata.CSYNC x ↦ Some x | v ↦ None ] } };

    ghost holds = { Prim.search rules };

    fn held_in(rdata: &RData) -> Option<&CSYNC> {
        held!(rdata, CSYNC)
    }

    fn moved_from(rdata: RData) -> Result<CSYNC, RData> {
        moved!(rdata, CSYNC)
    }

    fn in_value(self) -> RData {
        RData::CSYNC(self)
    }
}

impl Variant for HINFO {
    const TYPE: RecordType = RecordType::HINFO;

    ghost TYPE = { types.HINFO };

    ghost variant = { record { wrapped = λ x. rdata.HINFO x; borrowed = elim [ rdata.HINFO x ↦ Some x | v ↦ None ] } };

    ghost holds = { Prim.search rules };

    fn held_in(rdata: &RData) -> Option<&HINFO> {
        held!(rdata, HINFO)
    }

    fn moved_from(rdata: RData) -> Result<HINFO, RData> {
        moved!(rdata, HINFO)
    }

    fn in_value(self) -> RData {
        RData::HINFO(self)
    }
}

impl Variant for HTTPS {
    const TYPE: RecordType = RecordType::HTTPS;

    ghost TYPE = { types.HTTPS };

    ghost variant = { record { wrapped = λ x. rdata.HTTPS x; borrowed = elim [ rdata.HTTPS x ↦ Some x | v ↦ None ] } };

    ghost holds = { Prim.search rules };

    fn held_in(rdata: &RData) -> Option<&HTTPS> {
        held!(rdata, HTTPS)
    }

    fn moved_from(rdata: RData) -> Result<HTTPS, RData> {
        moved!(rdata, HTTPS)
    }

    fn in_value(self) -> RData {
        RData::HTTPS(self)
    }
}

impl Variant for MX {
    const TYPE: RecordType = RecordType::MX;

    ghost TYPE = { types.MX };

    ghost variant = { record { wrapped = λ x. rdata.MX x; borrowed = elim [ rdata.MX x ↦ Some x | v ↦ None ] } };

    ghost holds = { Prim.search rules };

    fn held_in(rdata: &RData) -> Option<&MX> {
        held!(rdata, MX)
    }

    fn moved_from(rdata: RData) -> Result<MX, RData> {
        moved!(rdata, MX)
    }

    fn in_value(self) -> RData {
        RData::MX(self)
    }
}

impl Variant for NAPTR {
    const TYPE: RecordType = RecordType::NAPTR;

    ghost TYPE = { types.NAPTR };

    ghost variant = { record { wrapped = λ x. rdata.NAPTR x; borrowed = elim [ rdata.NAPTR x ↦ Some x | v ↦ None ] } };

    ghost holds = { Prim.search rules };

    fn held_in(rdata: &RData) -> Option<&NAPTR> {
        held!(rdata, NAPTR)
    }

    fn moved_from(rdata: RData) -> Result<NAPTR, RData> {
        moved!(rdata, NAPTR)
    }

    fn in_value(self) -> RData {
        RData::NAPTR(self)
    }
}

impl Variant for NULL {
    const TYPE: RecordType = RecordType::NULL;

    ghost TYPE = { types.NULL };

    ghost variant = { record { wrapped = λ x. rdata.NULL x; borrowed = elim [ rdata.NULL x ↦ Some x | v ↦ None ] } };

    ghost holds = { Prim.search rules };

    fn held_in(rdata: &RData) -> Option<&NULL> {
        held!(rdata, NULL)
    }

    fn moved_from(rdata: RData) -> Result<NULL, RData> {
        moved!(rdata, NULL)
    }

    fn in_value(self) -> RData {
        RData::NULL(self)
    }
}

impl Variant for NS {
    const TYPE: RecordType = RecordType::NS;

    ghost TYPE = { types.NS };

    ghost variant = { record { wrapped = λ x. rdata.NS x; borrowed = elim [ rdata.NS x ↦ Some x | v ↦ None ] } };

    ghost holds = { Prim.search rules };

    fn held_in(rdata: &RData) -> Option<&NS> {
        held!(rdata, NS)
    }

    fn moved_from(rdata: RData) -> Result<NS, RData> {
        moved!(rdata, NS)
    }

    fn in_value(self) -> RData {
        RData::NS(self)
    }
}

impl Variant for OPENPGPKEY {
    const TYPE: RecordType = RecordType::OPENPGPKEY;

    ghost TYPE = { types.OPENPGPKEY };

    ghost variant = { record { wrapped = λ x. rdata.OPENPGPKEY x; borrowed = elim [ rdata.OPENPGPKEY x ↦ Some x | v ↦ None ] } };

    ghost holds = { Prim.search rules };

    fn held_in(rdata: &RData) -> Option<&OPENPGPKEY> {
        held!(rdata, OPENPGPKEY)
    }

    fn moved_from(rdata: RData) -> Result<OPENPGPKEY, RData> {
        moved!(rdata, OPENPGPKEY)
    }

    fn in_value(self) -> RData {
        RData::OPENPGPKEY(self)
    }
}

impl Variant for OPT {
    const TYPE: RecordType = RecordType::OPT;

    ghost TYPE = { types.OPT };

    ghost variant = { record { wrapped = λ x. rdata.OPT x; borrowed = elim [ rdata.OPT x ↦ Some x | v ↦ None ] } };

    ghost holds = { Prim.search rules };

    fn held_in(rdata: &RData) -> Option<&OPT> {
        held!(rdata, OPT)
    }

    fn moved_from(rdata: RData) -> Result<OPT, RData> {
        moved!(rdata, OPT)
    }

    fn in_value(self) -> RData {
        RData::OPT(self)
    }
}

impl Variant for PTR {
    const TYPE: RecordType = RecordType::PTR;

    ghost TYPE = { types.PTR };

    ghost variant = { record { wrapped = λ x. rdata.PTR x; borrowed = elim [ rdata.PTR x ↦ Some x | v ↦ None ] } };

    ghost holds = { Prim.search rules };

    fn held_in(rdata: &RData) -> Option<&PTR> {
        held!(rdata, PTR)
    }

    fn moved_from(rdata: RData) -> Result<PTR, RData> {
        moved!(rdata, PTR)
    }

    fn in_value(self) -> RData {
        RData::PTR(self)
    }
}

impl Variant for SMIMEA {
    const TYPE: RecordType = RecordType::SMIMEA;

    ghost TYPE = { types.SMIMEA };

    ghost variant = { record { wrapped = λ x. rdata.SMIMEA x; borrowed = elim [ rdata.SMIMEA x ↦ Some x | v ↦ None ] } };

    ghost holds = { Prim.search rules };

    fn held_in(rdata: &RData) -> Option<&SMIMEA> {
        held!(rdata, SMIMEA)
    }

    fn moved_from(rdata: RData) -> Result<SMIMEA, RData> {
        moved!(rdata, SMIMEA)
    }

    fn in_value(self) -> RData {
        RData::SMIMEA(self)
    }
}

impl Variant for SOA {
    const TYPE: RecordType = RecordType::SOA;

    ghost TYPE = { types.SOA };

    ghost variant = { record { wrapped = λ x. rdata.SOA x; borrowed = elim [ rdata.SOA x ↦ Some x | v ↦ None ] } };

    ghost holds = { Prim.search rules };

    fn held_in(rdata: &RData) -> Option<&SOA> {
        held!(rdata, SOA)
    }

    fn moved_from(rdata: RData) -> Result<SOA, RData> {
        moved!(rdata, SOA)
    }

    fn in_value(self) -> RData {
        RData::SOA(self)
    }
}

impl Variant for SRV {
    const TYPE: RecordType = RecordType::SRV;

    ghost TYPE = { types.SRV };

    ghost variant = { record { wrapped = λ x. rdata.SRV x; borrowed = elim [ rdata.SRV x ↦ Some x | v ↦ None ] } };

    ghost holds = { Prim.search rules };

    fn held_in(rdata: &RData) -> Option<&SRV> {
        held!(rdata, SRV)
    }

    fn moved_from(rdata: RData) -> Result<SRV, RData> {
        moved!(rdata, SRV)
    }

    fn in_value(self) -> RData {
        RData::SRV(self)
    }
}

impl Variant for SSHFP {
    const TYPE: RecordType = RecordType::SSHFP;

    ghost TYPE = { types.SSHFP };

    ghost variant = { record { wrapped = λ x. rdata.SSHFP x; borrowed = elim [ rdata.SSHFP x ↦ Some x | v ↦ None ] } };

    ghost holds = { Prim.search rules };

    fn held_in(rdata: &RData) -> Option<&SSHFP> {
        held!(rdata, SSHFP)
    }

    fn moved_from(rdata: RData) -> Result<SSHFP, RData> {
        moved!(rdata, SSHFP)
    }

    fn in_value(self) -> RData {
        RData::SSHFP(self)
    }
}

impl Variant for SVCB {
    const TYPE: RecordType = RecordType::SVCB;

    ghost TYPE = { types.SVCB };

    ghost variant = { record { wrapped = λ x. rdata.SVCB x; borrowed = elim [ rdata.SVCB x ↦ Some x | v ↦ None ] } };

    ghost holds = { Prim.search rules };

    fn held_in(rdata: &RData) -> Option<&SVCB> {
        held!(rdata, SVCB)
    }

    fn moved_from(rdata: RData) -> Result<SVCB, RData> {
        moved!(rdata, SVCB)
    }

    fn in_value(self) -> RData {
        RData::SVCB(self)
    }
}

impl Variant for TLSA {
    const TYPE: RecordType = RecordType::TLSA;

    ghost TYPE = { types.TLSA };

    ghost variant = { record { wrapped = λ x. rdata.TLSA x; borrowed = elim [ rdata.TLSA x ↦ Some x | v ↦ None ] } };

    ghost holds = { Prim.search rules };

    fn held_in(rdata: &RData) -> Option<&TLSA> {
        held!(rdata, TLSA)
    }

    fn moved_from(rdata: RData) -> Result<TLSA, RData> {
        moved!(rdata, TLSA)
    }

    fn in_value(self) -> RData {
        RData::TLSA(self)
    }
}

impl Variant for TXT {
    const TYPE: RecordType = RecordType::TXT;

    ghost TYPE = { types.TXT };

    ghost variant = { record { wrapped = λ x. rdata.TXT x; borrowed = elim [ rdata.TXT x ↦ Some x | v ↦ None ] } };

    ghost holds = { Prim.search rules };

    fn held_in(rdata: &RData) -> Option<&TXT> {
        held!(rdata, TXT)
    }

    fn moved_from(rdata: RData) -> Result<TXT, RData> {
        moved!(rdata, TXT)
    }

    fn in_value(self) -> RData {
        RData::TXT(self)
    }
}

impl RecordData for RData {
    ghost wrapped = { λ v. v };

    ghost borrowed = { λ v. Some v };

    ghost exactly = { Prim.search rules };

    fn try_borrow(rdata: &RData) -> Option<&RData> {
        Some(rdata)
    }

    fn record_type(&self) -> RecordType {
        RData::record_type(self)
    }

    fn into_rdata(self) -> RData {
        self
    }

    fn from_rdata(rdata: RData) -> Result<RData, RData> {
        Ok(rdata)
    }

    fn is_update(&self) -> bool {
        matches!(self, RData::Update0(_))
    }
}
