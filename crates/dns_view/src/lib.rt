//! RDATA as it is encoded in a message: looked at, compared and copied by its row of fields. Nothing here allocates but
//! [`NameRef::to_name`].
//!
//! - [`RowView`] is RDATA that was checked: its fields, its canonical and uncompressed octets, its order.
//! - [`FieldRef`] and [`NameRef`] are a field and a name, lent from the message. [`Labels`] iterates over the labels of a
//!   name, [`StringsRef`] over character strings, [`Tlvs`] over options or parameters, [`TypesRef`] over the types of a
//!   bitmap.
#![tactic(auto)]

pub mod bitmap;
pub mod name;
pub mod options;
pub mod parameters;
pub mod put;
pub mod row;
pub mod strings;
pub mod tlvs;

pub use bitmap::types::TypesRef;
pub use name::labels::Labels;
pub use name::name_ref::NameRef;
pub use row::field::FieldRef;
pub use row::view::RowView;
pub use strings::StringsRef;
pub use tlvs::{Tlv, Tlvs};
