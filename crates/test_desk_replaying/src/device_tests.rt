use desk_lines::{Counted, FrontFault};
use desk_replaying::replay;
use std::alloc::Global;
use std::io;
use std::process::Abort;
use std::sync::atomic::{AtomicU64, Ordering};
use std::test::Fail;
use test_devices::{ONE_BYTE, Pieces, Sips, WELL, Way, lines_in};

/// What was written, and how it ended.
#[derive(Drop)]
struct Ending {
    output: Vec<u8>,
    ended: Result<(), FrontFault>,
}

fn replayed(alloc: Global, text: &[u8], reads: Way, writes: Way) -> Ending {
    let mut reader = Counted::new(Pieces::new(text, reads));
    let mut writer = Counted::new(Sips::new(alloc, writes));
    let ended = replay(alloc, &mut reader, &mut writer);
    Ending {
        output: writer.inner.taken,
        ended,
    }
}

/// Two requests that are answered in the order against that of their tickets.
const TWO_REQUESTS: &[u8] = b"\
{\"model\":{\"inputs\":[\"a\"],\"decisions\":[{\"name\":\"d\",\"needs\":[\"a\"],\"expr\":\"a + 1\"}],\"services\":[{\"name\":\"s\",\"outputs\":[\"d\"],\"encapsulated\":[],\"inputDecisions\":[],\"inputData\":[\"a\"]}]}}\n\
{\"open\":\"a\",\"capacity\":2}\n\
{\"submit\":\"a\",\"service\":\"s\",\"inputs\":{\"a\":1}}\n\
{\"submit\":\"a\",\"service\":\"s\",\"inputs\":{\"a\":2}}\n\
{\"take\":\"a\",\"ticket\":0}\n\
{\"take\":\"a\",\"ticket\":1}\n\
{\"answer\":\"a\",\"ticket\":1}\n\
{\"release\":\"a\"}\n\
{\"answer\":\"a\",\"ticket\":0}\n\
{\"release\":\"a\"}\n\
{\"release\":\"a\"}\n\
{\"release\":\"a\"}\n";

const THEIR_REPORTS: &[u8] = b"\
{\"line\":1,\"model\":true}\n\
{\"client\":\"a\",\"line\":2,\"opened\":2}\n\
{\"accepted\":0,\"client\":\"a\",\"line\":3}\n\
{\"accepted\":1,\"client\":\"a\",\"line\":4}\n\
{\"client\":\"a\",\"line\":5,\"taken\":0}\n\
{\"client\":\"a\",\"line\":6,\"taken\":1}\n\
{\"client\":\"a\",\"kept\":1,\"line\":7}\n\
{\"client\":\"a\",\"line\":8,\"nothing\":true}\n\
{\"client\":\"a\",\"kept\":0,\"line\":9}\n\
{\"client\":\"a\",\"result\":2,\"ticket\":0}\n\
{\"client\":\"a\",\"result\":3,\"ticket\":1}\n\
{\"client\":\"a\",\"line\":12,\"nothing\":true}\n";

/// Whether all was reported, or the reader failed and there are the reports to the lines that came whole with so many bytes.
fn is_right_reading(run: &Ending, came: usize) -> bool {
    let whole = lines_in(&TWO_REQUESTS[..came.min(TWO_REQUESTS.len())]);
    match run.ended {
        Ok(()) => run.output.as_slice() == THEIR_REPORTS,
        Err(FrontFault::Read) => {
            THEIR_REPORTS.starts_with(&run.output)
                && lines_in(&run.output) == whole
                && matches!(run.output.last(), None | Some(b'\n'))
        }
        Err(_) => false,
    }
}

/// Whether all was reported, or the writer failed and there are so many bytes of the reports.
fn is_right_writing(run: &Ending, taken: usize) -> bool {
    match run.ended {
        Ok(()) => run.output.as_slice() == THEIR_REPORTS,
        Err(FrontFault::Write) => {
            THEIR_REPORTS.starts_with(&run.output) && run.output.len() == taken
        }
        Err(_) => false,
    }
}

/// Whether all is read before the reader fails, behind so many bytes.
fn ends_reading(rt: &impl Abort, alloc: Global, way: Way, came: usize) -> bool {
    let run = replayed(alloc, TWO_REQUESTS, way, WELL);
    assert!(rt;
        is_right_reading(&run, came),
        "{} {}",
        way.most,
        way.fails_at
    );
    run.ended == Ok(())
}

/// Whether all is written before the writer fails, behind so many bytes.
fn ends_writing(rt: &impl Abort, alloc: Global, way: Way, taken: usize) -> bool {
    let run = replayed(alloc, TWO_REQUESTS, WELL, way);
    assert!(rt;
        is_right_writing(&run, taken),
        "{} {}",
        way.most,
        way.fails_at
    );
    run.ended == Ok(())
}

#[test]
fn a_reader_may_fail_at_any_call(rt: HostRuntime) -> Result<(), Fail> {
    for most in [1, 7, 100] {
        for fails_at in 1..1000 {
            let came = (fails_at as usize - 1).saturating_mul(most);
            if ends_reading(&rt, rt.alloc(), Way { most, fails_at }, came) {
                break;
            }
        }
    }
    Ok(())
}

#[test]
fn a_writer_may_fail_at_any_call(rt: HostRuntime) -> Result<(), Fail> {
    for most in [1, 7, 100] {
        for fails_at in 1..1000 {
            let taken = (fails_at as usize - 1).saturating_mul(most);
            if ends_writing(&rt, rt.alloc(), Way { most, fails_at }, taken) {
                break;
            }
        }
    }
    Ok(())
}

const ONE_REQUEST: &[u8] = b"\
{\"model\":{\"inputs\":[\"a\"],\"decisions\":[{\"name\":\"d\",\"needs\":[\"a\"],\"expr\":\"a + 1\"}],\"services\":[{\"name\":\"s\",\"outputs\":[\"d\"],\"encapsulated\":[],\"inputDecisions\":[],\"inputData\":[\"a\"]}]}}\n\
{\"open\":\"a\",\"capacity\":2}\n\
{\"submit\":\"a\",\"service\":\"s\",\"inputs\":{\"a\":4}}\n\
{\"take\":\"a\",\"ticket\":0}\n\
{\"answer\":\"a\",\"ticket\":0}\n\
{\"release\":\"a\"}\n";

const ITS_REPORTS: &[u8] = b"\
{\"line\":1,\"model\":true}\n\
{\"client\":\"a\",\"line\":2,\"opened\":2}\n\
{\"accepted\":0,\"client\":\"a\",\"line\":3}\n\
{\"client\":\"a\",\"line\":4,\"taken\":0}\n\
{\"client\":\"a\",\"kept\":0,\"line\":5}\n\
{\"client\":\"a\",\"result\":5,\"ticket\":0}\n";

const TWO_REPORTS: &[u8] = b"\
{\"line\":1,\"model\":true}\n\
{\"client\":\"a\",\"line\":2,\"opened\":2}\n";

const THIRTY_BYTES: &[u8] = b"{\"line\":1,\"model\":true}\n{\"clie";

/// Reads no more than the first two lines at a call.
const AFTER_TWO_LINES: Way = Way {
    most: 207,
    fails_at: 2,
};

const IN_THE_THIRD_LINE: Way = Way {
    most: 220,
    fails_at: 2,
};

const AT_ONCE: Way = Way {
    most: 207,
    fails_at: 1,
};

const AFTER_THIRTY_BYTES: Way = Way {
    most: 30,
    fails_at: 2,
};

const NOTHING: Way = Way {
    most: 0,
    fails_at: 0,
};

/// How the devices give and take, what is written then, and how the run ends.
const DEVICES: &[(Way, Way, &[u8], Result<(), FrontFault>)] = &[
    (WELL, WELL, ITS_REPORTS, Ok(())),
    (ONE_BYTE, ONE_BYTE, ITS_REPORTS, Ok(())),
    (
        WELL,
        AFTER_THIRTY_BYTES,
        THIRTY_BYTES,
        Err(FrontFault::Write),
    ),
    (AFTER_TWO_LINES, WELL, TWO_REPORTS, Err(FrontFault::Read)),
    (IN_THE_THIRD_LINE, WELL, TWO_REPORTS, Err(FrontFault::Read)),
    (AT_ONCE, WELL, b"", Err(FrontFault::Read)),
    (
        AFTER_TWO_LINES,
        AFTER_THIRTY_BYTES,
        THIRTY_BYTES,
        Err(FrontFault::Write),
    ),
    (WELL, NOTHING, b"", Err(FrontFault::Write)),
];

#[test]
fn a_device_that_fails_leaves_the_lines_before(rt: HostRuntime) -> Result<(), Fail> {
    for (reads, writes, output, ended) in DEVICES {
        let run = replayed(rt.alloc(), ONE_REQUEST, *reads, *writes);
        assert!(rt; run.output.as_slice() == *output);
        assert!(rt; run.ended == *ended);
    }
    Ok(())
}

/// Gives a line at a call, and notes whether a line before it is still unanswered then.
#[derive(Drop)]
struct Turns<'a> {
    text: &'a [u8],
    given: u64,
    answered: &'a AtomicU64,
    is_late: bool,
}

impl io::Read for Turns<'_> {
    fn read(&mut self, buf: &mut [u8]) -> io::Result<usize> {
        if self.answered.load(Ordering::SeqCst) < self.given {
            self.is_late = true;
        }
        let line = match self.text.iter().position(|b| *b == b'\n') {
            Some(k) => k + 1,
            None => self.text.len(),
        };
        let n = line.min(buf.len());
        buf[..n].copy_from_slice(&self.text[..n]);
        self.text = &self.text[n..];
        self.given = self.given.saturating_add(1);
        Ok(n)
    }
}

/// Counts the lines that are written.
#[derive(Drop)]
struct Answers<'a> {
    answered: &'a AtomicU64,
}

impl io::Write for Answers<'_> {
    fn write(&mut self, buf: &[u8]) -> io::Result<usize> {
        self.answered
            .fetch_add(lines_in(buf) as u64, Ordering::SeqCst);
        Ok(buf.len())
    }

    fn flush(&mut self) -> io::Result<()> {
        Ok(())
    }
}

#[test]
fn an_answer_is_written_before_more_is_asked_for(rt: HostRuntime) -> Result<(), Fail> {
    let answered = AtomicU64::new(0);
    let mut reader = Counted::new(Turns {
        text: TWO_REQUESTS,
        given: 0,
        answered: &answered,
        is_late: false,
    });
    let mut writer = Counted::new(Answers {
        answered: &answered,
    });
    assert!(rt; replay(rt.alloc(), &mut reader, &mut writer).is_ok());
    assert!(rt; !reader.inner.is_late);
    assert_eq!(rt; answered.load(Ordering::SeqCst), 12);
    Ok(())
}
