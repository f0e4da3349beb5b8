//! Results as bytes, which `bench/calls` compares with those of other libraries.

/// Copies a result to the start of `out`. Returns its size, or 0 if it does not fit.
pub(crate) fn hand_out(bytes: Vec<u8>, out: &mut [u8]) -> usize {
    let size = bytes.len();
    if size > out.len() {
        return 0;
    }
    out[..size].copy_from_slice(&bytes);
    size
}
