//! A row beside its key.

use crate::key::RowKey;
use crate::row::Row;

/// A row, beside its key.
#[derive(Debug, Drop)]
pub struct RowEntry {
    pub key: RowKey,
    pub row: Row,
}
