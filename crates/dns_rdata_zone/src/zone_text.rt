//! RDATA printed as zone text.

ghost use Rattle.std.specs.Prelude.{◌≡◌, Some, OnOk, None};
ghost use Rattle.std.specs.Fmt.{DisplaysOnOk, DisplaysStyledOnOk};
ghost use Rattle.dns_rdata.specs.Data.{IsEmittable};
ghost use Rattle.dns_rdata_zone.specs.ZoneTexts.{zone_text};

use crate::certificates::{ZoneCert, ZoneOpenpgpkey, ZoneSshfp, ZoneTlsa};
use crate::generic::{Generic, GenericName};
use crate::names::ZoneName;
use crate::options::ZoneOptions;
use crate::records::{ZoneCaa, ZoneCsync, ZoneHinfo, ZoneNaptr, ZoneSoa, ZoneTxt};
use crate::services::write_service;
use dns_rdata::RData;
use std::fmt;

/// RDATA that prints as it is written in a zone file, in the form that name servers read (RFC 1035, section 5.1;
/// RFC 9460, section 2.1; the RFCs of the types). A value that has no such text prints in the unknown-data form (RFC
/// 3597, section 5). Printing allocates nothing, whatever the value.
///
/// Names are fully qualified, with case preserved; strings are in quotes; numbers have no sign; times to live and the
/// numbers of SOA are seconds. The text is printable ASCII in one line, with one blank between two fields
/// ([`zone_texts_hold`](crate::laws::zone_texts_hold)).
///
/// The unknown-data form is that of NULL, OPT, ANAME, ZERO and every type without a format of its own; of TXT
/// without strings; of CERT, SSHFP, TLSA, SMIMEA and OPENPGPKEY without data; of CAA whose tag has other octets than
/// ASCII letters and digits; and of SVCB and HTTPS with a parameter that has no text ([`has_text`](crate::has_text)).
#[derive(Clone, Copy)]
pub struct ZoneText<'a>(pub &'a RData);

impl<'a> ZoneText<'a> {
    /// Makes a value that prints the data.
    #[inline]
    pub fn new(rdata: &'a RData) -> ZoneText<'a>
        ensures { result.0.now ≡ rdata.now }
    {
        ZoneText(rdata)
    }
}

impl fmt::Display for ZoneText<'_> {
    ghost output = { λ z. Some (zone_text z.0.now) };

    /// Writes `10 mail.example.com.`, `"a \"string\""`, `\# 2 abcd`.
    ///
    /// # Errors
    ///
    /// What was written before the error stays written.
    ///
    /// - [`Error`](fmt::Error): the value cannot be emitted.
    /// - Any error of the writer.
    fn fmt<W: fmt::Write>(&self, f: &mut fmt::Formatter<W>) -> fmt::Result
        ensures writes { DisplaysOnOk W.write_str_gives f.old result (Some (zone_text self.now.0.now)) f.new }
        ensures styled { DisplaysStyledOnOk W.write_str_gives f.old result None f.new }
        ensures emittable { OnOk result (IsEmittable self.now.0.now) }
    {
        let data = self.0;
        if !data.is_emittable() {
            return Err(fmt::Error);
        }
        match data {
            RData::A(a) => write!(f, "{a}"),
            RData::AAAA(a) => write!(f, "{a}"),
            RData::ANAME(x) => f.write(GenericName(&x.0)),
            RData::CAA(x) => f.write(ZoneCaa(x)),
            RData::CERT(x) => f.write(ZoneCert(x)),
            RData::CNAME(x) => f.write(ZoneName(&x.0)),
            RData::CSYNC(x) => f.write(ZoneCsync(x)),
            RData::HINFO(x) => f.write(ZoneHinfo(x)),
            RData::HTTPS(x) => write_service(data, &x.0, f),
            RData::MX(x) => {
                let exchange = ZoneName(&x.exchange);
                write!(f, "{} {exchange}", x.preference)
            }
            RData::NAPTR(x) => f.write(ZoneNaptr(x)),
            RData::NULL(x) => f.write(Generic(x.anything.as_slice())),
            RData::NS(x) => f.write(ZoneName(&x.0)),
            RData::OPENPGPKEY(x) => f.write(ZoneOpenpgpkey(x)),
            RData::OPT(x) => f.write(ZoneOptions(x)),
            RData::PTR(x) => f.write(ZoneName(&x.0)),
            RData::SMIMEA(x) => f.write(ZoneTlsa(&x.0)),
            RData::SOA(x) => f.write(ZoneSoa(x)),
            RData::SRV(x) => {
                let target = ZoneName(&x.target);
                write!(f, "{} {} {} {target}", x.priority, x.weight, x.port)
            }
            RData::SSHFP(x) => f.write(ZoneSshfp(x)),
            RData::SVCB(x) => write_service(data, x, f),
            RData::TLSA(x) => f.write(ZoneTlsa(x)),
            RData::TXT(x) => f.write(ZoneTxt(x)),
            RData::Unknown { rdata, .. } => f.write(Generic(rdata.anything.as_slice())),
            RData::Update0(_) | RData::ZERO => f.write_str("\\# 0"),
        }
    }
}
