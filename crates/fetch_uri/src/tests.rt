use crate::{Uri, is_uri, read_uri};
use std::alloc::{AllocError, Global};
use std::test::Fail;

#[test]
fn an_address_is_read_in_its_three_parts(rt: HostRuntime) {
    let table = [
        ("http://h:1/x", "h", 1, "/x"),
        ("http://h:65535/", "h", 65_535, "/"),
        (
            "http://127.0.0.1:8080/a:b/c?d#e",
            "127.0.0.1",
            8_080,
            "/a:b/c?d#e",
        ),
        ("http://A-z.09:10/!~", "A-z.09", 10, "/!~"),
        ("http://-:9//", "-", 9, "//"),
    ];
    for (text, host, port, path) in table {
        assert_eq!(rt; read_uri(text), Some(Uri { host, port, path }), "{text}");
    }
}

#[test]
fn anything_else_is_refused(rt: HostRuntime) {
    let table = [
        "",
        "http://",
        "http://h",
        "http://h/x",
        "http://h:1",
        "http://h:/x",
        "http://:1/x",
        "http://h:0/x",
        "http://h:00/x",
        "http://h:080/x",
        "http://h:+1/x",
        "http://h:-1/x",
        "http://h: 1/x",
        "http://h:1a/x",
        "http://h:65536/x",
        "http://h:99999/x",
        "http://h:18446744073709551617/x",
        "http://h:1:2/x",
        "http://h_x:1/",
        "http://user@h:1/x",
        "http://[::1]:1/x",
        "http://\u{e9}:1/x",
        "http://h:1/a b",
        "http://h:1/x\u{7f}",
        "http://h:1/\u{e9}",
        "http://h:1/x\n",
        "https://h:1/x",
        "HTTP://h:1/x",
        "http:/h:1/x",
        " http://h:1/x",
    ];
    for text in table {
        assert!(rt; !is_uri(text), "{text}");
    }
}

// The address whose host has so many letters, and whose path so many bytes behind its slash.
fn address(alloc: Global, host: usize, path: usize) -> Result<String, AllocError> {
    let mut text = String::from_str(alloc, "http://")?;
    for _ in 0..host {
        text.push('h')?;
    }
    text.push_str(":1/")?;
    for _ in 0..path {
        text.push('x')?;
    }
    Ok(text)
}

#[test]
fn the_lengths_are_bounded(rt: HostRuntime) -> Result<(), Fail> {
    // letters of the host, bytes behind the slash, and whether that is an address
    let table = [
        (255, 0, true),
        (256, 0, false),
        // 7 + 255 + 3 + 759 is 1,024
        (255, 759, true),
        (255, 760, false),
        (1, 1_013, true),
        (1, 1_014, false),
    ];
    for (host, path, want) in table {
        let text = address(rt.alloc(), host, path)?;
        assert_eq!(rt; is_uri(text.as_str()), want, "{host} and {path}");
    }
    Ok(())
}
