// The entry conditions of one production, read from its fields in the table.
pub mod entry;
