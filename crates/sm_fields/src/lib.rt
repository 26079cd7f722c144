//! The fields of the on-disk formats: how each is read and written, each with one spelling.
#![tactic(auto)]

mod fault;
mod laws;
mod parts;
mod reader;
mod writer;

pub use fault::FieldFault;
pub use laws::{first_fault, one_spelling, written_is_read};
pub use parts::{
    framed, read_head, read_identity, read_optional_identity, read_truth, read_word,
    write_identity, write_optional_identity, write_truth,
};
pub use reader::Reader;
pub use writer::Writer;
