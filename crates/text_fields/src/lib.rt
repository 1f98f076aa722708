//! Texts that are rows of fields, read from left to right, each field tested as soon as it is read.
//! `specs/` says what a format is: one description of a text, of the values that have one, and of
//! how it is read with the first refusal, and the ways to make larger formats of smaller ones. Code
//! reads a field or a list of rows and gives what its format's reader gives.
#![tactic(auto)]

mod fields;
mod lists;
mod refusal;

pub use fields::{
    field_place, read_byte, read_byte_within, read_bytes, read_u16, read_u16_within, read_u32,
    read_u32_within, read_u64,
};
pub use lists::{NumberedRow, Row, read_ascending, read_many};
pub use refusal::{FieldError, RowError};
