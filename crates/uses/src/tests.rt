//! Tests in code: the callers and the extension type, and what no row of `rows` can show: what a value hands out, and readers and writers that
//! are slow or fail. As in the crates of rows, many values that are looked at are not dropped, so that there is less to prove.
mod callers;
mod extension;
mod parts;
mod reading;
mod sources;
