// A node's step: who moves over its links, and who comes.
pub(crate) mod in_link;
pub(crate) mod out_link;
pub(crate) mod pass;
pub(crate) mod transfer;
pub(crate) mod turn;
