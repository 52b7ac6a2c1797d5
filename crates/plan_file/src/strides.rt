// How long the parts of a plan file are (document 01, "The plan file"; document 02, item 1): a module record, a bus record and the trailer.
pub(crate) const MODULE_STRIDE: usize = 20;

pub(crate) const BUS_STRIDE: usize = 12;

pub(crate) const TRAILER: usize = 16;
