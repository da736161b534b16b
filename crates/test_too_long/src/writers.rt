// Every other writer that is lent inputs, by the kind that its records have in the program `test_leaves`.
use crate::spelled;
use std::io::Stdout;

// Names of the bytes together: all but three in the first, three in the second.
fn names(bytes: &[u8]) -> [&[u8]; 2] {
    let first = bytes.len().saturating_sub(3);
    [&bytes[..first], &bytes[..bytes.len() - first]]
}

// The writer of a kind, with inputs of n bytes together.
fn tried(output: Stdout, kind: u8, bytes: &[u8], n: usize, out: &mut [u8]) {
    let text = &bytes[..n.min(bytes.len())];
    let list = names(text);
    out.fill(7);
    match kind {
        b'q' => spelled::written(output, &[kind], frontend::write_query(text, out), out),
        b'y' => spelled::written(output, &[kind], frontend::write_copy_data(text, out), out),
        b'u' => spelled::shown(output, &[kind], lossy::write_lossy(text, out), out),
        b'U' => spelled::shown(
            output,
            &[kind],
            lossy::by_table::write_lossy(text, out),
            out,
        ),
        b'e' => spelled::shown(
            output,
            &[kind],
            messages::parse_error_response(text, out),
            out,
        ),
        b'o' => spelled::written(output, &[kind], config::to_option_value(&list, out), out),
        _ => {
            let w = frontend::write_startup(196608, &list, out);
            spelled::written(output, &[kind], w, out)
        }
    }
}

// One above the limit and at it, with either output.
pub(crate) fn all(output: Stdout, bytes: &[u8], short: &mut [u8], long: &mut [u8]) {
    for kind in [b'q', b'y', b'u', b'U', b'e', b'o', b's'] {
        tried(output, kind, bytes, 1048577, short);
        tried(output, kind, bytes, 1048576, short);
        tried(output, kind, bytes, 1048577, long);
        tried(output, kind, bytes, 1048576, long);
    }
}
