// The alphabet of tokens.
use base64::engine::general_purpose::STANDARD;
use std::alloc::Global;

fn is_written(alloc: Global, bytes: &str, text: &str) -> bool {
    match STANDARD.encode(alloc, bytes.as_bytes()) {
        Ok(written) => written.as_str() == text,
        Err(_) => false,
    }
}

fn is_read(alloc: Global, bytes: &str, text: &str) -> bool {
    match STANDARD.decode(alloc, text.as_bytes()) {
        Ok(read) => read.as_slice() == bytes.as_bytes(),
        Err(_) => false,
    }
}

const EXAMPLES: &[(&str, &str)] = &[
    ("", ""),
    ("f", "Zg=="),
    ("fo", "Zm8="),
    ("foo", "Zm9v"),
    ("foob", "Zm9vYg=="),
    ("fooba", "Zm9vYmE="),
    ("foobar", "Zm9vYmFy"),
];

#[test]
fn the_engine_writes_and_reads_the_examples_of_rfc_4648(rt: HostRuntime) {
    let alloc = rt.alloc();
    for &(bytes, text) in EXAMPLES {
        let is_spelled = is_written(alloc, bytes, text) && is_read(alloc, bytes, text);
        assert!(rt; is_spelled, "{text}");
    }
}
