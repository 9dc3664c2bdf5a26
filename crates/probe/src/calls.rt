//! Calls that are asked in plain words, a line for each, and what each gives.

pub mod cache_rows;
pub mod cache_tables;
pub mod caches;
pub mod fields;
pub mod keys;
pub mod names;
pub mod pins;
pub mod plans;
pub mod store_views;
pub mod stores;
pub mod texts;
pub mod versions;
