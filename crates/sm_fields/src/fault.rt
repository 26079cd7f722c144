/// No spelling of the field that is read stands here.
#[derive(Clone, Copy, Debug, PartialEq, Eq)]
pub struct FieldFault {
    /// The first byte of the field, counted from the first byte that the reader was given.
    pub at: u32,
}
