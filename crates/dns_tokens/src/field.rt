//! The fields that errors about tokens name.

/// A field of a record, with the texts of its errors. Both are static, so that an error allocates nothing.
#[derive(Clone, Copy, Debug, PartialEq, Eq)]
pub struct Field {
    /// The text if its token is missing, such as `MX preference`.
    pub name: &'static str,
    /// The text for a token that is no value of the field, such as `Invalid digit found in MX preference token`.
    pub wrong: &'static str,
}

// Which field a number is of.
#[macro_export]
macro_rules! number_field {
    ($name:literal) => {
        $crate::Field {
            name: $name,
            wrong: concat!("Invalid digit found in ", $name, " token"),
        }
    };
}

// Which field a time to live is of, and the most seconds that it has.
#[macro_export]
macro_rules! time_field {
    ($name:literal, $most:literal) => {
        $crate::Field {
            name: $name,
            wrong: concat!("no time of at most ", $most, " seconds in ", $name, " token"),
        }
    };
}

// Which field base64 is of.
#[macro_export]
macro_rules! base64_field {
    ($name:literal) => {
        $crate::Field {
            name: $name,
            wrong: concat!("Invalid base64 ", $name),
        }
    };
}
