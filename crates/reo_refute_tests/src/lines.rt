//! Lines of logs, read and written.
use reo_joint_values::JointValue;
use reo_refute_base::LogLine;
use reo_refute_parts::{line, put_line};
use reo_values::{Bytes, Unread};
use std::test::Fail;

/// Lines and their texts.
const LINES: &[(LogLine, &[u8])] = &[
    (LogLine::At(0), b"at 0\n"),
    (LogLine::At(1_048_577), b"at 1048577\n"),
    (LogLine::Drop(0, JointValue::RG, 0), b"drop 0 rg 0\n"),
    (LogLine::Drop(10, JointValue::GR, 3), b"drop 10 gr 3\n"),
    (LogLine::Drop(2, JointValue::GG, 30), b"drop 2 gg 30\n"),
    (LogLine::Drop(2, JointValue::Jam, 1), b"drop 2 jam 1\n"),
    (
        LogLine::Drop(7, JointValue::Flow(255), 12),
        b"drop 7 f 255 12\n",
    ),
    (LogLine::Empty(5), b"empty 5\n"),
    (
        LogLine::Split(9_223_372_036_854_775_807),
        b"split 9223372036854775807\n",
    ),
];

/// Texts at which no line stands.
const NO_LINES: &[&[u8]] = &[
    b"",
    b"\n",
    b"at\n",
    b"at \n",
    b"at 1",
    b"at 01\n",
    b"at +1\n",
    b"at 1 \n",
    b" at 1\n",
    b"At 1\n",
    b"at 9223372036854775808\n",
    b"drop 0 rg\n",
    b"drop 0 f 0\n",
    b"drop 0 RG 0\n",
    b"drop 0 f 4294967296 0\n",
    b"drop 0  rg 0\n",
    b"empty 5\r\n",
    b"split\n",
    b"proved\n",
];

#[test]
fn lines_are_written_and_read(rt: HostRuntime) -> Result<(), Fail> {
    for (want, text) in LINES {
        let mut out = Bytes::new(rt.alloc());
        put_line(rt.alloc(), &mut out, *want)?;
        assert!(rt; out.as_slice() == *text);
        let mut reader = Unread::new(*text);
        assert!(rt; line(&mut reader) == Some(*want));
        assert!(rt; reader.is_done());
    }
    Ok(())
}

#[test]
fn other_texts_are_no_lines(rt: HostRuntime) -> Result<(), Fail> {
    for text in NO_LINES {
        let mut reader = Unread::new(*text);
        assert!(rt; line(&mut reader) == None);
    }
    Ok(())
}
