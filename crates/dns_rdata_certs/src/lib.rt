//! RDATA of certificates, keys and fingerprints.
#![tactic(auto, using(dns_names_wire::proofs::FieldReads::reading, dns_check::proofs::ByRow::exact_row, dns_tokens::proofs::Steps::reading, dns_canonical::proofs::Comparing::then_equal, dns_canonical::proofs::Comparing::then_assoc))]

// Matches over an enum with numbers. The enum's list calls the macro with what was given for it, the enum's name, an
// entry for each variant of one number, and one for each variant with its number inside: name, number, rank in the
// declaration.

// The variant of a number; the arms after the value are for numbers that no variant has alone.
macro_rules! of_number {
    (($value:expr, $($other:tt)+) $kind:ident $(($name:ident $number:literal $rank:literal))+ $([$inside:ident $at:literal])+) => {
        match $value {
            $($number => $kind::$name,)+
            $($other)+
        }
    };
}

// The number of a variant.
macro_rules! number_of {
    (($value:expr) $kind:ident $(($name:ident $number:literal $rank:literal))+ $([$inside:ident $at:literal])+) => {
        match $value {
            $($kind::$name => $number,)+
            $($kind::$inside(number) => number,)+
        }
    };
}

// The rank of a variant in the declaration.
macro_rules! rank_of {
    (($value:expr) $kind:ident $(($name:ident $number:literal $rank:literal))+ $([$inside:ident $at:literal])+) => {
        match $value {
            $($kind::$name => $rank,)+
            $($kind::$inside(_) => $at,)+
        }
    };
}

// Whether two values are one variant, and have one number inside if any.
macro_rules! are_same {
    (($a:expr, $b:expr) $kind:ident $(($name:ident $number:literal $rank:literal))+ $([$inside:ident $at:literal])+) => {
        $a.variant() == $b.variant()
            && match ($a, $b) {
                $(($kind::$inside(a), $kind::$inside(b)) => a == b,)+
                _ => true,
            }
    };
}

// Writes the name of a variant; the arms after the formatter are for variants with their number inside.
macro_rules! write_name {
    (($value:expr, $f:ident, $($other:tt)+) $kind:ident $(($name:ident $number:literal $rank:literal))+ $([$inside:ident $at:literal])+) => {
        match $value {
            $($kind::$name => $f.write_str(stringify!($name)),)+
            $($other)+
        }
    };
}

pub mod cert;
pub mod hexadecimal;
pub mod smimea;
pub mod sshfp;
pub mod tlsa;

pub use cert::CERT;
pub use hexadecimal::HEX;
pub use smimea::SMIMEA;
pub use sshfp::SSHFP;
pub use tlsa::TLSA;
