// Rows with the windows of each.
use net_core::Windows;

/// A row of a table, and its windows.
#[derive(Drop)]
pub struct WithWindows<R> {
    pub row: R,
    pub windows: Windows,
}

// The rows of a table, and their windows in the same order.
#[derive(Drop)]
pub(crate) struct RowParts<R> {
    pub(crate) rows: Vec<R>,
    pub(crate) windows: Vec<Windows>,
}
