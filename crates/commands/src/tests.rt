// What lines of windows are read as.
use super::call::Call;
use super::command::{Command, ReadLine};
use std::alloc::Global;

// The room of the window that a line writes to a file, if it is such a line.
fn room(heap: Global, line: &str) -> Option<usize> {
    match Command::read_line(heap, line) {
        Ok(Command::Call(Call::Picture(window))) => Some(window.output),
        _ => None,
    }
}

// The room of a picture goes by its sides, wherever it lies.
#[test]
fn rooms(rt: HostRuntime) {
    for (line, expected) in [
        ("window 0 0 128 128 f", Some(49167)),
        ("window 5000000000 0 128 128 f", Some(49167)),
        ("window 0 -9223372036854775808 1 2 f", Some(21)),
        ("window 0 0 129 1 f", Some(0)),
        ("window 0 0 1 0 f", Some(0)),
        ("window 0 0 1 1 palette=48 output=99", None),
        ("window 0 0 1 1", None),
    ] {
        assert_eq!(rt; room(rt.alloc(), line), expected);
    }
}
