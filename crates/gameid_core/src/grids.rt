//! Grids as they are printed.

pub(crate) mod printed;
pub(crate) mod readable;
pub(crate) mod reader;
pub(crate) mod writer;
