//! What a file has at the key `geo`.

/// What a file has at the key `geo` (docs/FORMAT.md, 5).
#[derive(Clone, Copy, Debug)]
pub enum GeoSource<'a> {
    /// Nothing, and nothing is missing: lines, and Arrow files and streams without the key.
    Unasked,
    /// Nothing: a Parquet file without the key.
    Missing,
    /// A value, which need not be UTF-8.
    Value(&'a [u8]),
}

/// What a file has at the key `geo`, where it is no JSON.
#[derive(Clone, Copy)]
pub(crate) enum Unread<'a> {
    /// Nothing, and nothing is missing.
    Unasked,
    /// Nothing.
    Missing,
    /// Bytes that are no UTF-8.
    NoUtf8(&'a [u8]),
    /// A text that is no JSON.
    NoJson(&'a str),
}
