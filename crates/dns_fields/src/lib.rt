//! The grammar of DNS record data.
#![tactic(auto)]

ghost use Rattle.dns_fields.specs.Laws.{StandsLaw, OneEnd, CanonicalLaw, CanonicalReads, WrittenReads, OctetsLaw, EqualLaw, EquivalenceLaw, OrderLaw};
ghost use Rattle.dns_fields.specs.Laws.{TiesLaw};
ghost use Rattle.dns_fields.specs.Examples.{StringExamples, NameExamples, OptionExamples, ParameterExamples, BitmapExamples};

/// How domain names in RDATA are written.
#[derive(Clone, Copy, Debug, PartialEq, Eq)]
pub enum RDataEncoding {
    /// As in the records of RFC 1035: a name may end with a compression pointer to an earlier one.
    StandardRecord,
    /// Uncompressed, with case preserved: the types whose canonical form has names in lower case (RFC 4034, section
    /// 6.2).
    Canonical,
    /// Uncompressed, with case preserved: every other type.
    Other,
}

/// A kind of field of RDATA: how its octets are laid out. A type of record is a list of kinds.
#[derive(Clone, Copy, Debug, PartialEq, Eq)]
pub enum Kind {
    /// An unsigned number of so many octets, the highest first (RFC 1035, 2.3.2).
    Number(u8),
    /// So many octets.
    Octets(u8),
    /// A domain name (RFC 1035, 3.1 and 4.1.4).
    Name,
    /// A character string: one octet of length and at most 255 octets (RFC 1035, 3.3).
    CharacterString,
    /// Character strings up to the end of the RDATA.
    CharacterStrings,
    /// All octets up to the end of the RDATA.
    Rest,
    /// Options of EDNS: the whole RDATA (RFC 6891, 6.1.2).
    Options,
    /// Parameters of a service binding, up to the end of the RDATA (RFC 9460, 2.2).
    Parameters,
    /// A bitmap of type numbers, up to the end of the RDATA (RFC 4034, 4.1.2).
    Bitmap,
}

/// Laws of reading and writing, for every list of kinds of fields.
#[tactic(auto, using(crate::proofs::Laws::stands_law, crate::proofs::Laws::one_end, crate::proofs::Laws::canonical_law, crate::proofs::Laws::canonical_stands, crate::proofs::Laws::wrote_stands, crate::proofs::OctetLaws::canonical_octets_are))]
pub fn fields_hold()
    // Fields at an offset have one value, and it can be emitted.
    ensures stands { StandsLaw }
    // A field that says itself where it ends has one end.
    ensures ends { OneEnd }
    // Equal values have equal canonical octets, and no others.
    ensures canonical { CanonicalLaw }
    // Canonical octets are read as an equal value.
    ensures reads { CanonicalReads }
    // What was written is read there as an equal value, after any octets and in any mode.
    ensures written { WrittenReads }
    // The canonical octets of a value that is read from octets are octets.
    ensures octets { OctetsLaw }
{}

/// Laws of equality and order, for every list of kinds of fields.
#[tactic(auto, using(crate::proofs::EqualLaws::values_decide, crate::proofs::Equivalences::values_equiv, crate::proofs::Orders::values_total, crate::proofs::Orders::values_ties))]
pub fn comparing_holds()
    // `==` tells whether values are the same, where their names are fully qualified.
    ensures equal { EqualLaw }
    // `==` is an equivalence.
    ensures equivalence { EquivalenceLaw }
    // The order is total.
    ensures order { OrderLaw }
    // The order is `Equal` exactly if `==` holds.
    ensures ties { TiesLaw }
{}

/// The grammar at work, on octets that were worked out by hand: some hold values, some hold none.
#[tactic(auto, using(crate::proofs::Examples::string_examples, crate::proofs::Examples::name_examples, crate::proofs::Examples::option_examples, crate::proofs::Examples::parameter_examples, crate::proofs::BitmapExamples::bitmap_examples))]
pub fn examples_hold()
    // Numbers, octets and strings.
    ensures strings { StringExamples }
    // Names, uncompressed and with compression pointers.
    ensures names { NameExamples }
    // Options of EDNS.
    ensures options { OptionExamples }
    // Parameters of service binding.
    ensures parameters { ParameterExamples }
    // Sets of type numbers.
    ensures bitmaps { BitmapExamples }
{}
