//! Inputs of other formats.
use std::str;

/// The reason for a text in UTF-16.
const UTF_16: &str = "this is UTF-16; convert it first: iconv -f UTF-16 -t UTF-8 FILE";

/// Returns what an input is that begins as another format does, and what to do with it.
pub fn foreign_format(input: &[u8]) -> Option<&'static str> {
    match input {
        [0x1f, 0x8b, ..] => Some("this is compressed by gzip; decompress it first: gzip -dc FILE"),
        [0x28, 0xb5, 0x2f, 0xfd, ..] => {
            Some("this is compressed by zstd; decompress it first: zstd -dc FILE")
        }
        [b'P', b'K', 3, 4, ..] => Some("this is a ZIP archive; extract the file first"),
        [0xff, 0xfe, ..] | [0xfe, 0xff, ..] => Some(UTF_16),
        [b'{' | b'[', 0, ..] | [0, b'{' | b'[', ..] => Some(UTF_16),
        [0xef, 0xbb, 0xbf, ..] => {
            Some("the input begins with a byte order mark; skip its 3 bytes: tail -c +4 FILE")
        }
        _ => foreign_text(input),
    }
}

/// Returns the same for a text.
fn foreign_text(input: &[u8]) -> Option<&'static str> {
    if input.starts_with(b"<?xml") || input.starts_with(b"<hotspot_log") {
        return Some(
            "this is XML, as HotSpot logs are; tools/from_hotspot makes a profile of such a log",
        );
    }
    if input.starts_with(b"v8-version,") {
        return Some("this is a log of V8; tools/from_v8 makes a profile of it");
    }
    if is_compilation(input) {
        return Some(
            "this is printed by -XX:+PrintCompilation; tools/from_hotspot reads the log of -XX:+LogCompilation",
        );
    }
    None
}

/// Returns whether a text begins with a line as HotSpot prints one for each compilation.
fn is_compilation(input: &[u8]) -> bool {
    let Some(line) = input.split(|byte| *byte == b'\n').next() else {
        return false;
    };
    match str::from_utf8(line) {
        Ok(line) => line.starts_with(' ') && line.contains("::") && line.contains(" bytes)"),
        Err(_) => false,
    }
}
