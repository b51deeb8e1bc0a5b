// What `serve` does for a program that tells the size of its reply alone: the right bytes are read and written, and the status tells what failed.
ghost use Rattle.std.specs.Prelude.{◌≡◌, take};

use super::*;

// Replies with the text itself, as much of it as there is room for.
struct Echo;

impl Program<4> for Echo {
    ghost Reply = { λ text out size. take size out ≡ take size text };

    const UNREAD: &'static str = "echo: the text could not be read";

    const UNWRITTEN: &'static str = "echo: the reply could not be written";

    fn reply(text: &[u8], out: &mut [u8; 4]) -> usize {
        let size = text.len().min(4);
        out[..size].copy_from_slice(&text[..size]);
        size
    }
}

// An input that breaks off behind its first bytes.
#[derive(Drop)]
struct Broken<'a>(&'a [u8]);

impl Read for Broken<'_> {
    fn read(&mut self, to: &mut [u8]) -> io::Result<usize> {
        if self.0.is_empty() {
            return Err(ErrorKind::BrokenPipe.into());
        }
        self.0.read(to)
    }
}

#[test]
fn replies_to_what_was_read(rt: HostRuntime) {
    for (text, left, written) in [
        ("", "", "......"),
        ("abc", "", "abc..."),
        ("abcdef", "", "abcd.."),
        ("abcdefgh", "gh", "abcd.."),
    ] {
        let mut input = text.as_bytes();
        let mut output = *b"......";
        let mut room = output.as_mut_slice();
        let status = serve::<Echo, 6, 4, _, _, _>(&rt, &mut input, &mut room);
        assert_eq!(rt; status, ExitCode::SUCCESS, "at {text}");
        assert_eq!(rt; input, left.as_bytes(), "at {text}");
        assert_eq!(rt; output.as_slice(), written.as_bytes(), "at {text}");
    }
}

#[test]
fn has_room_for_long_texts(rt: HostRuntime) {
    let mut output = *b"......";
    let mut room = output.as_mut_slice();
    let status = serve::<Echo, 1048577, 4, _, _, _>(&rt, &mut b"abcdef".as_slice(), &mut room);
    assert_eq!(rt; status, ExitCode::SUCCESS);
    assert_eq!(rt; output.as_slice(), b"abcd..".as_slice());
}

#[test]
fn tells_what_failed(rt: HostRuntime) {
    let mut output = *b"...";
    let mut room = output.as_mut_slice();
    let status = serve::<Echo, 6, 4, _, _, _>(&rt, &mut Broken(b"ab"), &mut room);
    assert_eq!(rt; status, ExitCode::FAILURE, "a text that breaks off");
    assert_eq!(rt; room.len(), 3, "nothing is written");
    let mut text = b"abcdef".as_slice();
    let status = serve::<Echo, 6, 4, _, _, _>(&rt, &mut text, &mut room);
    assert_eq!(rt; status, ExitCode::FAILURE, "no room for the reply");
}
