//! Escapes.
use cell_key::{ByteText, NoMemory, TextError, append_escape, escape, unescape};
use std::alloc::Global;

fn escapes(alloc: Global, bytes: &[u8], text: &[u8]) -> Result<bool, NoMemory> {
    let escaped = escape(alloc, bytes)?;
    Ok(escaped.bytes() == text)
}

fn reads(alloc: Global, text: &[u8], bytes: &[u8]) -> Result<bool, TextError> {
    let read = unescape(alloc, text)?;
    Ok(read.bytes() == bytes)
}

fn is_spelled(alloc: Global, bytes: &[u8], text: &[u8]) -> bool {
    escapes(alloc, bytes, text).unwrap_or(false) && reads(alloc, text, bytes).unwrap_or(false)
}

#[test]
fn bytes_are_escaped(rt: HostRuntime) {
    let spellings: [(&[u8], &[u8]); 5] = [
        (b"a:b", b"a\\x3ab"),
        (b" ", b"\\x20"),
        (b"", b""),
        (b"\\:=,()[]", b"\\x5c\\x3a\\x3d\\x2c\\x28\\x29\\x5b\\x5d"),
        (b"!~\x00\x7f\x80\xff", b"!~\\x00\\x7f\\x80\\xff"),
    ];
    for (i, (bytes, text)) in spellings.iter().enumerate() {
        assert!(rt; is_spelled(rt.alloc(), bytes, text), "{i}");
    }
}

#[test]
fn bytes_are_read(rt: HostRuntime) -> Result<(), TextError> {
    assert!(rt; reads(rt.alloc(), b"\\xAb\\xFF", b"\xab\xff")?);
    assert!(rt; reads(rt.alloc(), b"\x80\xff:=", b"\x80\xff:=")?);
    Ok(())
}

fn is_refused(alloc: Global, text: &[u8], at: usize) -> bool {
    match unescape(alloc, text) {
        Err(TextError::Fault { at: found }) => found == at,
        _ => false,
    }
}

#[test]
fn faults_are_found(rt: HostRuntime) {
    let refused: [(&[u8], usize); 7] = [
        (b"a\\x2", 1),
        (b"\\", 0),
        (b"ab\\\\x41", 2),
        (b"\\X41", 0),
        (b"\\x4g", 0),
        (b"\\x3a b", 4),
        (b"a\x7f", 1),
    ];
    for (i, (text, at)) in refused.iter().enumerate() {
        assert!(rt; is_refused(rt.alloc(), text, *at), "{i}");
    }
}

fn grown(alloc: Global) -> Result<ByteText, NoMemory> {
    let mut text = ByteText::new(alloc);
    append_escape(&mut text, b"a b")?;
    text.append(b"cd")?;
    text.push(b'e')?;
    Ok(text)
}

fn is_grown(text: &ByteText) -> bool {
    text.bytes() == b"a\\x20bcde".as_slice()
        && text.len() == 9
        && !text.is_empty()
        && *text.get(0) == b'a'
}

#[test]
fn texts_grow(rt: HostRuntime) -> Result<(), NoMemory> {
    let text = grown(rt.alloc())?;
    assert!(rt; is_grown(&text));
    Ok(())
}
