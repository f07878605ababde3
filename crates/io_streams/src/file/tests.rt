//! What no clause can say of a file: that its bytes are those that were written, and which names fail.
use super::FileSource;
use crate::source::{ReadAnswer, Source};
use std::fs;

#[test]
fn a_file_is_read_to_its_end(rt: HostRuntime) {
    assert!(rt; fs::write(&rt, "feed", "S,1\nS,2\n").is_ok());
    let mut source = FileSource::new(&rt, "feed");
    let mut buffer = [0u8; 6];
    assert_eq!(rt; source.read(&mut buffer), ReadAnswer::Got(6));
    assert_eq!(rt; buffer.as_slice(), b"S,1\nS,".as_slice());
    assert_eq!(rt; source.read(&mut buffer), ReadAnswer::Got(2));
    assert_eq!(rt; buffer[..2], *b"2\n".as_slice());
    assert_eq!(rt; source.read(&mut buffer), ReadAnswer::End);
    assert_eq!(rt; source.failed, 0);
}

#[test]
fn a_name_that_is_not_there_is_a_fault(rt: HostRuntime) {
    let mut source = FileSource::new(&rt, "nothing");
    let mut buffer = [0u8; 6];
    assert_eq!(rt; source.failed, 0);
    assert_eq!(rt; source.read(&mut buffer), ReadAnswer::Failed);
    assert_eq!(rt; source.failed, 1);
}
