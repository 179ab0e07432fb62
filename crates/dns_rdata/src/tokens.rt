//! RDATA read from tokens (RFC 1035, section 5.1).

ghost use Rattle.std.specs.Prelude.{◌≡◌, ◌⊎◌, None, Err, IfOk, IfErr, map};
ghost use Rattle.std.specs.{Cow.cow_str_bytes, Iterator.IsFinite, Option.option_copied, Result.result_map_both};
ghost use Rattle.dns_rdata.specs.Data.{type_of};
ghost use Rattle.dns_rdata.specs.DataTokens.{AnswersDataTokens, ReadsDataTokens, ReadsDataText, ReadsDataTextAt, AreDataTokens, PrintsBack, HasNoTokens};
ghost use Rattle.dns_tokens.specs.TextWords.{NoTextWords};
ghost use Rattle.dns_tokens.specs.Reads.{Decides, UnlessParseMemory};

use crate::record_data::RData;
use crate::traits::RecordData;
use crate::{
    A, AAAA, ANAME, CAA, CERT, CNAME, CSYNC, HINFO, HTTPS, MX, NAPTR, NS, OPENPGPKEY, PTR, SMIMEA,
    SOA, SRV, SSHFP, SVCB, TLSA, TXT,
};
use dns_names_wire::{Name, ParseError, RecordType};
use dns_tokens::{PlainWords, is_plain, text_words};
use std::alloc::Global;
use std::convert::AsStr;

impl RData {
    // Reads the tokens of a type.
    fn read_tokens<S: AsStr + Drop, I: Iterator<Item = S>>(
        alloc: Global,
        record_type: RecordType,
        tokens: I,
        origin: Option<&Name>,
    ) -> Result<RData, ParseError>
        requires can { I.can_next tokens }
        requires ends { IsFinite (I.remaining tokens) }
        ensures { AnswersDataTokens I.next_gives S.text (option_copied origin.entry) record_type result tokens }
    {
        match record_type {
            RecordType::A => wrap(A::from_tokens(tokens)),
            RecordType::AAAA => wrap(AAAA::from_tokens(tokens)),
            RecordType::ANAME => wrap(ANAME::from_tokens(alloc, tokens, origin)),
            RecordType::CAA => wrap(CAA::from_tokens(alloc, tokens)),
            RecordType::CERT => wrap(CERT::from_tokens(alloc, tokens)),
            RecordType::CNAME => wrap(CNAME::from_tokens(alloc, tokens, origin)),
            RecordType::CSYNC => wrap(CSYNC::from_tokens(alloc, tokens)),
            RecordType::HINFO => wrap(HINFO::from_tokens(alloc, tokens)),
            RecordType::HTTPS => wrap(HTTPS::from_tokens(alloc, tokens)),
            RecordType::MX => wrap(MX::from_tokens(alloc, tokens, origin)),
            RecordType::NAPTR => wrap(NAPTR::from_tokens(alloc, tokens, origin)),
            RecordType::NS => wrap(NS::from_tokens(alloc, tokens, origin)),
            RecordType::OPENPGPKEY => wrap(OPENPGPKEY::from_tokens(alloc, tokens)),
            RecordType::PTR => wrap(PTR::from_tokens(alloc, tokens, origin)),
            RecordType::SMIMEA => wrap(SMIMEA::from_tokens(alloc, tokens)),
            RecordType::SOA => wrap(SOA::from_tokens(alloc, tokens, origin)),
            RecordType::SRV => wrap(SRV::from_tokens(alloc, tokens, origin)),
            RecordType::SSHFP => wrap(SSHFP::from_tokens(alloc, tokens)),
            RecordType::SVCB => wrap(SVCB::from_tokens(alloc, tokens)),
            RecordType::TLSA => wrap(TLSA::from_tokens(alloc, tokens)),
            RecordType::TXT => wrap(TXT::from_tokens(alloc, tokens)),
            RecordType::ZERO => Ok(RData::ZERO),
            _ => Err(ParseError::UnsupportedRecordType(record_type)),
        }
    }

    /// Reads RDATA of this type from its tokens, one by one, as the record's own `from_tokens` does. A relative name is
    /// completed with the origin, if there is one.
    ///
    /// Tokens after those of the type are not read, with these exceptions: OPENPGPKEY and SSHFP reject a further token,
    /// and TXT, TLSA, SMIMEA, CSYNC, SVCB and HTTPS read all of them as their last field. Of ZERO no token is read. The
    /// iterator must end, as every iterator of a list or of a text's parts does.
    ///
    /// # Errors
    ///
    /// - [`MissingToken`](ParseError::MissingToken): a token is missing; the text names its field.
    /// - [`Message`](ParseError::Message): a token has none of the field's values, or is one too many. The text says
    ///   which field; that it is the right field is tested and not proved.
    /// - [`AddrParse`](ParseError::AddrParse): a token is no address.
    /// - [`Proto`](ParseError::Proto): a token is no name, no type or no key of a parameter.
    /// - [`UnsupportedRecordType`](ParseError::UnsupportedRecordType): no text is read for the type, as for every type
    ///   with an unknown number.
    /// - [`Memory`](ParseError::Memory): an allocation failed.
    ///
    /// ```rust
    /// fn parse_alias(alloc: Global, origin: &Name) -> Result<RData, ParseError> {
    ///     RData::from_tokens(alloc, RecordType::CNAME, "www".split(' '), Some(origin))
    /// }
    /// ```
    #[tactic(auto, using(crate::proofs::DataTokens::data_back))]
    pub fn from_tokens<S: AsStr + Drop, I: Iterator<Item = S>>(
        alloc: Global,
        record_type: RecordType,
        tokens: I,
        origin: Option<&Name>,
    ) -> Result<RData, ParseError>
        requires can { I.can_next tokens }
        requires ends { IsFinite (I.remaining tokens) }
        // A value is returned exactly if the tokens give it.
        ensures reads { ReadsDataTokens I.next_gives S.text (option_copied origin.entry) record_type result tokens }
        ensures kind { IfOk result (λ v. type_of v ≡ record_type) }
        // The display text of a value of the type, split at its blanks, gives the value back.
        ensures back { PrintsBack (option_copied origin.entry) record_type }
        ensures unsupported { HasNoTokens record_type → result ≡ Err (ParseError.UnsupportedRecordType record_type) }
    {
        RData::read_tokens(alloc, record_type, tokens, origin)
    }

    /// Reads RDATA of this type from a display text (RFC 1035, section 5.1), without an origin. Its tokens are read as
    /// by [`RData::from_tokens`]: a list in parentheses gives its tokens, character data one, blanks and line ends
    /// none.
    ///
    /// The tokens are read one by one from the text. A list of them is made, which allocates, only if the text has
    /// parentheses, a comment or quotes with a `\`.
    ///
    /// # Errors
    ///
    /// [`Message`](ParseError::Message) if the text cannot be divided into such tokens; otherwise those of
    /// `from_tokens`.
    ///
    /// ```rust
    /// fn parse_mail(alloc: Global) -> Result<RData, ParseError> {
    ///     RData::try_from_str(alloc, RecordType::MX, "10 mail.example.com.")
    /// }
    /// ```
    pub fn try_from_str(
        alloc: Global,
        record_type: RecordType,
        text: &str,
    ) -> Result<RData, ParseError>
        ensures reads { ReadsDataText record_type result text.now }
        ensures kind { IfOk result (λ v. type_of v ≡ record_type) }
        // A type without tokens is rejected with its name, unless memory runs out or the text cannot be divided into
        // tokens.
        ensures unsupported { HasNoTokens record_type
            → IfErr result (λ e. UnlessParseMemory e ((e ≡ ParseError.UnsupportedRecordType record_type) ⊎ NoTextWords text.now)) }
    {
        RData::try_from_str_with_origin(alloc, record_type, text, None)
    }

    /// The same with an origin, which completes relative names.
    ///
    /// ```rust
    /// fn parse_mail_of(alloc: Global, origin: &Name) -> Result<RData, ParseError> {
    ///     RData::try_from_str_with_origin(alloc, RecordType::MX, "10 mail", Some(origin))
    /// }
    /// ```
    pub fn try_from_str_with_origin(
        alloc: Global,
        record_type: RecordType,
        text: &str,
        origin: Option<&Name>,
    ) -> Result<RData, ParseError>
        ensures reads { ReadsDataTextAt (option_copied origin.entry) record_type result text.now }
        ensures kind { IfOk result (λ v. type_of v ≡ record_type) }
        ensures unsupported { HasNoTokens record_type
            → IfErr result (λ e. UnlessParseMemory e ((e ≡ ParseError.UnsupportedRecordType record_type) ⊎ NoTextWords text.now)) }
    {
        // Most texts are plain, and need no list of their tokens.
        if is_plain(text) {
            return RData::from_tokens(alloc, record_type, PlainWords::new(text), origin);
        }
        let tokens = text_words(alloc, text)?;
        RData::from_tokens(alloc, record_type, tokens.into_iter(), origin)
    }
}

// The value that holds the record that was read.
#[inline(always)]
fn wrap<T: RecordData + Drop>(outcome: Result<T, ParseError>) -> Result<RData, ParseError>
    ensures { result ≡ result_map_both T.wrapped (λ e. e) outcome }
{
    Ok(outcome?.into_rdata())
}
