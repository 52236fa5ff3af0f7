//! Names, names of files, keys, lines, words, numbers and seeds.
use line_text::{FileKind, FileName, Name, TableKey, lines, number, put_number, read_seed, words};
use std::process::Abort;
use std::test::Fail;

/// Asserts that the texts are those wanted, one by one.
fn assert_texts(rt: &impl Abort, found: &[Vec<u8>], want: &[&[u8]]) {
    assert_eq!(rt; found.len(), want.len(), "as many texts");
    for (text, wanted) in found.iter().zip(want) {
        assert_eq!(rt; text.as_slice(), *wanted);
    }
}

#[test]
fn names(rt: HostRuntime) -> Result<(), Fail> {
    let longest = [b'z'; 64];
    let too_long = [b'z'; 65];
    let rows: [(&[u8], bool); 16] = [
        (b"k", true),
        (b"_", true),
        (b"0", true),
        (b"input", true),
        (b"az_09", true),
        (&longest, true),
        (&too_long, false),
        (b"", false),
        (b"K", false),
        (b"kE", false),
        (b"k.sk", false),
        (b"a b", false),
        (b"a-b", false),
        (b"a/b", false),
        (b"`", false),
        (b"a\xc3\xa9", false),
    ];
    for (word, is_name) in rows {
        match Name::read(rt.alloc(), word)? {
            Some(name) => {
                assert!(rt; is_name, "{word:?} is no name");
                assert_eq!(rt; name.bytes(), word);
                let copied = name.copy(rt.alloc())?;
                assert_eq!(rt; copied.bytes(), word);
                assert!(rt; copied == name);
            }
            None => assert!(rt; !is_name, "{word:?} is a name"),
        }
    }
    Ok(())
}

#[test]
fn file_names(rt: HostRuntime) -> Result<(), Fail> {
    let rows: [(FileKind, &[u8], &[u8]); 10] = [
        (FileKind::Table, b".table", b"old k.table"),
        (FileKind::Template, b".tmpl", b"old k.tmpl"),
        (FileKind::Secret, b".sk", b"old k.sk"),
        (FileKind::Public, b".pk", b"old k.pk"),
        (FileKind::Eval, b".ek", b"old k.ek"),
        (FileKind::Cipher, b".ct", b"old k.ct"),
        (FileKind::Slots, b".slots", b"old k.slots"),
        (FileKind::Prog, b".prog", b"old k.prog"),
        (FileKind::Seed, b".seed", b"old k.seed"),
        (FileKind::Script, b".script", b"old k.script"),
    ];
    let secret = FileName {
        name: Name::read(rt.alloc(), b"k")?.ok_or("a name")?,
        kind: FileKind::Secret,
    };
    for (kind, extension, text) in rows {
        assert_eq!(rt; kind.extension(), extension);
        let file = FileName {
            name: Name::read(rt.alloc(), b"k")?.ok_or("a name")?,
            kind,
        };
        let mut out = Vec::from_slice(rt.alloc(), b"old ")?;
        file.put(&mut out)?;
        assert_eq!(rt; out.as_slice(), text);
        assert!(rt; file.copy(rt.alloc())?.is(&file));
        assert_eq!(rt; file.is(&secret), kind == FileKind::Secret);
        assert_eq!(rt; file == secret, kind == FileKind::Secret);
    }
    let other = FileName {
        name: Name::read(rt.alloc(), b"k2")?.ok_or("a name")?,
        kind: FileKind::Secret,
    };
    assert!(rt; !other.is(&secret));
    Ok(())
}

#[test]
fn table_keys(rt: HostRuntime) {
    let rows: [(TableKey, &[u8]); 12] = [
        (TableKey::M, b"m"),
        (TableKey::P, b"p"),
        (TableKey::Factor, b"factor"),
        (TableKey::Dual, b"dual"),
        (TableKey::Generators, b"generators"),
        (TableKey::Weight, b"weight"),
        (TableKey::Digits, b"digits"),
        (TableKey::Chain, b"chain"),
        (TableKey::Special, b"special"),
        (TableKey::Inverse, b"inverse"),
        (TableKey::Text, b"text"),
        (TableKey::Other, b"other"),
    ];
    for (key, word) in rows {
        assert_eq!(rt; key.word(), word);
    }
}

#[test]
fn texts_have_lines(rt: HostRuntime) -> Result<(), Fail> {
    let rows: [(&[u8], &[&[u8]]); 14] = [
        (b"", &[]),
        (b"a", &[b"a"]),
        (b"a\n", &[b"a"]),
        (b"a\n\n", &[b"a", b""]),
        (b"\n", &[b""]),
        (b"\n\n", &[b"", b""]),
        (b"\na", &[b"", b"a"]),
        (b"a\nb", &[b"a", b"b"]),
        (b"a\r\n", &[b"a"]),
        (b"a\r", &[b"a"]),
        (b"a\r\r\nb\r\n", &[b"a\r", b"b"]),
        (b"X\n\r", &[b"X", b""]),
        (b"\r", &[b""]),
        (b"a\rb\n \tc\n", &[b"a\rb", b" \tc"]),
    ];
    for (text, want) in rows {
        assert_texts(&rt, &lines(rt.alloc(), text)?, want);
    }
    Ok(())
}

#[test]
fn lines_have_words(rt: HostRuntime) -> Result<(), Fail> {
    let rows: [(&[u8], &[&[u8]]); 9] = [
        (b"", &[]),
        (b" ", &[]),
        (b"   ", &[]),
        (b"a", &[b"a"]),
        (b" a ", &[b"a"]),
        (b"z = add  x y", &[b"z", b"=", b"add", b"x", b"y"]),
        (b"  a   b  ", &[b"a", b"b"]),
        (b"a\tb c", &[b"a\tb", b"c"]),
        (b"\r \x00", &[b"\r", b"\x00"]),
    ];
    for (line, want) in rows {
        assert_texts(&rt, &words(rt.alloc(), line)?, want);
    }
    Ok(())
}

#[test]
fn words_are_numbers(rt: HostRuntime) {
    let rows: [(&[u8], Option<u64>); 20] = [
        (b"0", Some(0)),
        (b"00", Some(0)),
        (b"7", Some(7)),
        (b"007", Some(7)),
        (b"131071", Some(131071)),
        (b"4294967296", Some(4294967296)),
        (b"9999999999999999999", Some(9999999999999999999)),
        (b"18446744073709551615", Some(18446744073709551615)),
        (b"00000000000000000007", Some(7)),
        (b"18446744073709551616", None),
        (b"18446744073709551620", None),
        (b"99999999999999999999", None),
        (b"000000000000000000007", None),
        (b"184467440737095516150", None),
        (b"", None),
        (b"-1", None),
        (b"+1", None),
        (b"1a", None),
        (b"1 ", None),
        (b"/:", None),
    ];
    for (word, want) in rows {
        assert_eq!(rt; number(word), want, "of {word:?}");
    }
}

#[test]
fn numbers_are_printed(rt: HostRuntime) -> Result<(), Fail> {
    let rows: [(u64, &[u8]); 8] = [
        (0, b"x0"),
        (7, b"x7"),
        (10, b"x10"),
        (99, b"x99"),
        (100, b"x100"),
        (4294967296, b"x4294967296"),
        (10000000000000000000, b"x10000000000000000000"),
        (18446744073709551615, b"x18446744073709551615"),
    ];
    for (x, want) in rows {
        let mut out = Vec::from_slice(rt.alloc(), b"x")?;
        put_number(&mut out, x)?;
        assert_eq!(rt; out.as_slice(), want);
    }
    Ok(())
}

/// The text of one line of this digit, 64 times, with this end.
fn repeated(rt: &impl AllocGlobal, digit: u8, end: &[u8]) -> Result<Vec<u8>, Fail> {
    let mut text = vec![in rt.alloc(); digit; 64]?;
    text.extend_from_slice(end)?;
    Ok(text)
}

#[test]
fn texts_are_seeds(rt: HostRuntime) -> Result<(), Fail> {
    let rows: [(u8, &[u8], Option<[u8; 32]>); 17] = [
        (b'0', b"", Some([0; 32])),
        (b'0', b"\n", Some([0; 32])),
        (b'0', b"\r\n", Some([0; 32])),
        (b'0', b"\r", Some([0; 32])),
        (b'9', b"", Some([0x99; 32])),
        (b'a', b"", Some([0xaa; 32])),
        (b'f', b"\n", Some([0xff; 32])),
        (b'0', b"\r\r", None),
        (b'0', b"\r\r\n", None),
        (b'0', b"\n\n", None),
        (b'0', b"\n\r", None),
        (b'0', b"0", None),
        (b'0', b" ", None),
        (b'A', b"", None),
        (b'g', b"", None),
        (b' ', b"", None),
        (b'\n', b"", None),
    ];
    for (digit, end, want) in rows {
        let text = repeated(&rt, digit, end)?;
        assert_eq!(rt; read_seed(&text), want, "of {text:?}");
    }
    let short = [b'0'; 63];
    assert_eq!(rt; read_seed(&short), None);
    assert_eq!(rt; read_seed(b""), None);

    // The high half comes first.
    let text = b"0123456789abcdeffedcba987654321000112233445566778899aabbccddeeff\n";
    let seed = [
        0x01, 0x23, 0x45, 0x67, 0x89, 0xab, 0xcd, 0xef, 0xfe, 0xdc, 0xba, 0x98, 0x76, 0x54, 0x32,
        0x10, 0x00, 0x11, 0x22, 0x33, 0x44, 0x55, 0x66, 0x77, 0x88, 0x99, 0xaa, 0xbb, 0xcc, 0xdd,
        0xee, 0xff,
    ];
    assert_eq!(rt; read_seed(text), Some(seed));
    Ok(())
}
