//! The functions that share their names with the types of [`shapes`](crate::shapes).

pub use crate::elements::elem;
pub use crate::forms::form;
pub use binary_payloads::cover;
