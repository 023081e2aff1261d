use script::play::play;
use std::alloc::Global;
use std::cell::Cell;
use std::io;
use std::io::{ErrorKind, Read, Write};
use std::process::Abort;
use std::test::Fail;

// Board 1 of two stores 2a at address 3; its request is delivered, and then the grant.
const SCRIPT: &[u8] = b"K0200100000000 \nS010030000002a \nD0000000000000 \nD0000000000000 \n";

const LISTING: &[u8] = b"A02001000000000\nO010030000002a0\nM00002000000000\nF010030000002a0\n";

/// Signals, if they come, interrupt every other call.
#[derive(Drop)]
struct Signals {
    come: bool,
    is_next: bool,
}

impl Signals {
    fn new(come: bool) -> Signals {
        Signals {
            come,
            is_next: come,
        }
    }

    fn pass(&mut self) -> io::Result<()> {
        if self.is_next {
            self.is_next = false;
            return Err(ErrorKind::Interrupted.into());
        }
        self.is_next = self.come;
        Ok(())
    }
}

/// Gives at most so many characters at a time, and an error in place of the end, if there is one.
#[derive(Drop)]
struct Source<'a> {
    script: &'a [u8],
    step: usize,
    error: Option<ErrorKind>,
    signals: Signals,
}

impl Source<'_> {
    fn new(script: &[u8], step: usize) -> Source<'_> {
        Source {
            script,
            step,
            error: None,
            signals: Signals::new(false),
        }
    }
}

impl Read for Source<'_> {
    fn read(&mut self, buf: &mut [u8]) -> io::Result<usize> {
        self.signals.pass()?;
        if self.script.is_empty()
            && let Some(kind) = self.error
        {
            return Err(kind.into());
        }
        let count = self.step.min(buf.len()).min(self.script.len());
        buf[..count].copy_from_slice(&self.script[..count]);
        self.script = &self.script[count..];
        Ok(count)
    }
}

/// Takes at most so many characters at a time, and no more than it has room for.
#[derive(Drop)]
struct Sink {
    listing: Vec<u8>,
    step: usize,
    room: usize,
    signals: Signals,
}

impl Sink {
    fn new(heap: Global, step: usize) -> Sink {
        Sink {
            listing: Vec::new(heap),
            step,
            room: usize::MAX,
            signals: Signals::new(false),
        }
    }
}

impl Write for Sink {
    fn write(&mut self, buf: &[u8]) -> io::Result<usize> {
        self.signals.pass()?;
        if self.room == 0 {
            return Err(ErrorKind::StorageFull.into());
        }
        let count = self.step.min(buf.len()).min(self.room);
        self.listing.extend_from_slice(&buf[..count])?;
        self.room -= count;
        Ok(count)
    }

    fn flush(&mut self) -> io::Result<()> {
        Ok(())
    }
}

/// Plays, and compares what was written, and the error, if one is wanted.
fn expect(
    rt: &impl Abort,
    mut input: Source<'_>,
    mut output: Sink,
    listing: &[u8],
    error: Option<ErrorKind>,
) {
    let played = play(&mut input, &mut output);
    assert!(rt;
        output.listing.as_slice() == listing,
        "{}",
        listing.escape_ascii()
    );
    assert!(rt;
        played.err().map(|e| e.kind()) == error,
        "{}",
        listing.escape_ascii()
    );
}

/// The whole listing, however the script comes.
fn expect_read(rt: &impl Abort, heap: Global, script: &[u8], listing: &[u8]) {
    for step in [1, 2, 15, 16, 17, 100] {
        for come in [false, true] {
            let mut input = Source::new(script, step);
            input.signals = Signals::new(come);
            expect(rt, input, Sink::new(heap, 100), listing, None);
        }
    }
}

#[test]
fn read_in_pieces(rt: HostRuntime) {
    expect_read(&rt, rt.alloc(), SCRIPT, LISTING);
    expect_read(&rt, rt.alloc(), b"", b"");
    // a refused K ends the play, and so does a record cut short
    let ended = b"K0000000000000 \nD0000000000000 \nD00";
    let cut = b"K0200100000000 \nD00";
    expect_read(&rt, rt.alloc(), ended, b"X00004000000000\n");
    expect_read(&rt, rt.alloc(), cut, b"A02001000000000\nX00017000000000\n");
}

#[test]
fn written_in_pieces(rt: HostRuntime) {
    for step in [1, 3, 16, 17, 100] {
        for come in [false, true] {
            let mut output = Sink::new(rt.alloc(), step);
            output.signals = Signals::new(come);
            expect(&rt, Source::new(SCRIPT, 100), output, LISTING, None);
        }
    }
}

#[test]
fn refused_writing(rt: HostRuntime) {
    // all that there is room for is written, and it is the beginning of the listing
    for room in 0..64 {
        for step in [1, 5, 100] {
            let mut output = Sink::new(rt.alloc(), step);
            output.room = room;
            let error = Some(ErrorKind::StorageFull);
            expect(
                &rt,
                Source::new(SCRIPT, 100),
                output,
                &LISTING[..room],
                error,
            );
        }
    }
    // where nothing is taken, it says so
    let error = Some(ErrorKind::WriteZero);
    expect(
        &rt,
        Source::new(SCRIPT, 100),
        Sink::new(rt.alloc(), 0),
        b"",
        error,
    );
}

#[test]
fn refused_reading(rt: HostRuntime) {
    // each whole record that came is answered; one that is not whole is not, for more of it might have come
    for count in 0..65 {
        for step in [1, 5, 100] {
            let mut input = Source::new(&SCRIPT[..count], step);
            input.error = Some(ErrorKind::ConnectionReset);
            let whole = count / 16 * 16;
            let error = Some(ErrorKind::ConnectionReset);
            expect(
                &rt,
                input,
                Sink::new(rt.alloc(), 100),
                &LISTING[..whole],
                error,
            );
        }
    }
}

/// Gives a record at a time, and fails where one before it is not answered yet.
#[derive(Drop)]
struct Typist<'a> {
    script: &'a [u8],
    given: usize,
    answered: &'a Cell<usize>,
}

impl Read for Typist<'_> {
    fn read(&mut self, buf: &mut [u8]) -> io::Result<usize> {
        if self.answered.get() != self.given {
            return Err(ErrorKind::WouldBlock.into());
        }
        let count = buf.len().min(self.script.len()).min(16);
        buf[..count].copy_from_slice(&self.script[..count]);
        self.script = &self.script[count..];
        self.given = self.given.saturating_add(count);
        Ok(count)
    }
}

/// Counts what it is given.
#[derive(Drop)]
struct Screen<'a> {
    answered: &'a Cell<usize>,
}

impl Write for Screen<'_> {
    fn write(&mut self, buf: &[u8]) -> io::Result<usize> {
        self.answered
            .set(self.answered.get().saturating_add(buf.len()));
        Ok(buf.len())
    }

    fn flush(&mut self) -> io::Result<()> {
        Ok(())
    }
}

#[test]
fn answered_at_once(rt: HostRuntime) -> Result<(), Fail> {
    let answered = Cell::new(0);
    let mut input = Typist {
        script: SCRIPT,
        given: 0,
        answered: &answered,
    };
    let mut output = Screen {
        answered: &answered,
    };
    play(&mut input, &mut output)?;
    assert_eq!(rt; answered.get(), 64);
    Ok(())
}
