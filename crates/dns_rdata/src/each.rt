//! Matches over the records.

// Calls a macro with the arguments, and after them the types that have a record of their own, each with the rank of its
// variant.
macro_rules! with_records {
    ($macro:ident, $arguments:tt) => {
        $macro!(
            $arguments (A 0) (AAAA 1) (ANAME 2) (CAA 3) (CERT 4) (CNAME 5) (CSYNC 6) (HINFO 7)
            (HTTPS 8) (MX 9) (NAPTR 10) (NULL 11) (NS 12) (OPENPGPKEY 13) (OPT 14) (PTR 15)
            (SMIMEA 16) (SOA 17) (SRV 18) (SSHFP 19) (SVCB 20) (TLSA 21) (TXT 22)
        )
    };
}

// Matches a value: first the given arms, then one for each record, all with the same body.
macro_rules! each {
    (($value:expr, $x:ident => $body:expr, $($pattern:pat => $other:expr,)+) $(($record:ident $rank:literal))+) => {
        match $value {
            $($pattern => $other,)+
            $(RData::$record($x) => $body,)+
        }
    };
    ($($arguments:tt)+) => {
        with_records!(each, ($($arguments)+))
    };
}

// Matches two values: first the given arms, then one for two records of each named type. The first types are compared
// by a call, the others inline.
macro_rules! equal_each {
    ($values:expr, [$($called:ident)+], [$($record:ident)+], $($pattern:pat => $other:expr),+; $last:expr) => {
        match $values {
            $($pattern => $other,)+
            $((RData::$called(a), RData::$called(b)) => is_equal(a, b),)+
            $((RData::$record(a), RData::$record(b)) => *a == *b,)+
            _ => $last,
        }
    };
}

// Matches the type: first the given arms, then one for each record, which returns its value, or the error of RDATA that it does not
// fill.
macro_rules! read_each {
    (
        ($record_type:expr, $decoder:ident, $length:ident, $($pattern:pat => $other:expr),+; $code:ident => $last:expr)
        $(($record:ident $rank:literal))+
    ) => {
        match $record_type {
            $($pattern => $other,)+
            $(RecordType::$record => {
                return Ok(RData::$record(read_whole::<$record>($decoder, $length)?));
            })+
            $code => $last,
        }
    };
    ($($arguments:tt)+) => {
        with_records!(read_each, ($($arguments)+))
    };
}

// Clones a value: first the given arms, then one for each record. Addresses are copied.
macro_rules! clone_each {
    (($value:expr, $($pattern:pat => $other:expr,)+) (A 0) (AAAA 1) $(($record:ident $rank:literal))+) => {
        match $value {
            $($pattern => $other,)+
            RData::A(a) => return Ok(RData::A(*a)),
            RData::AAAA(a) => return Ok(RData::AAAA(*a)),
            $(RData::$record(data) => return Ok(RData::$record(data.clone()?)),)+
        }
    };
    ($($arguments:tt)+) => {
        with_records!(clone_each, ($($arguments)+))
    };
}

pub(crate) use clone_each;
pub(crate) use each;
pub(crate) use equal_each;
pub(crate) use read_each;
pub(crate) use with_records;
