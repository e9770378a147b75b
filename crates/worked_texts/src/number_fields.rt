//! Number fields.
use texts::read_number;

/// Fields with the greatest number that is wanted, and what they are read as.
const FIELDS: [(&str, u32, Option<u32>); 15] = [
    ("0", 0, Some(0)),
    ("1", 0, None),
    ("65535", 65_535, Some(65_535)),
    ("65536", 65_535, None),
    ("4294967295", u32::MAX, Some(u32::MAX)),
    ("4294967296", u32::MAX, None),
    ("8191", 8191, Some(8191)),
    ("8192", 8191, None),
    ("000000000000000000000000000007", 7, Some(7)),
    ("99999999999999999999999999", 65_535, None),
    ("", 65_535, None),
    ("+1", 65_535, None),
    ("-1", 65_535, None),
    ("1a", 65_535, None),
    ("\u{661}", 65_535, None),
];

#[test]
fn reads_numbers_at_their_edges(rt: HostRuntime) {
    for (field, most, number) in &FIELDS {
        assert!(rt; read_number(field.as_bytes(), *most) == *number, "{field}");
    }
}
