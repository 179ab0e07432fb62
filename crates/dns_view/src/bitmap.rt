//! Bitmaps of types: their types, their order, and their shortest form.

pub mod order;
pub mod put;
pub mod types;
