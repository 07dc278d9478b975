//! Runs over readers and writers that cut, fail or never end. What they are to write follows from
//! the rules and the formats by hand.
use crate::run::run_on_bytes;
use crate::tests::fakes::{Chunks, Did, Ends, observe, texts};
use crate::tests::rows::Row;
use commands::{Source, push_number};
use ends::ReadEnd;
use std::alloc::{AllocError, Global};
use std::test::Fail;

/// Three lines, without a line end after the last.
const LINES: &str = "solve pattern < 1x1:/||2x1:1/1/1 > 2 one|.|refused: no colon|none|";

/// The same lines with other line ends.
const ENDED: [&str; 4] = [
    LINES,
    "solve pattern < 1x1:/||2x1:1/1/1| > 2 one|.|refused: no colon|none|",
    "solve pattern < 1x1:/\r|\r|2x1:1/1/1 > 2 one|.|refused: no colon|none|",
    "solve pattern < 1x1:/\r|\r|2x1:1/1/1\r| > 2 one|.|refused: no colon|none|",
];

/// A grid of Solo with six numbers.
const RIGHT: &str = "check solo 2x3:zj \
    < 1 2 3 4 5 6|4 5 6 1 2 3|2 3 1 5 6 4|5 6 4 2 3 1|3 1 2 6 4 5|6 4 5 3 1 2| > 0 correct|";

/// Inputs that are no grids: as many bytes as are read, one more, and many more.
const NO_GRIDS: [&str; 3] = [
    "check solo 2x3:zj < (16384:|) > 2 refused: grid|",
    "check solo 2x3:zj < (16385:|) > 2 refused: grid|",
    "check solo 2x3:zj < (100000:|) > 2 refused: grid|",
];

/// An ID that is solved; the program's stored run has these words too.
const SOLVED: &str = "solve pattern 5x1:1/1//1/1/2.2 > 0 one|##.##|";

/// What the run of a line does over such ends, and what it writes.
fn seen_over(alloc: Global, line: &str, ends: Ends) -> Result<(Did, Vec<u8>), Fail> {
    let row = Row::read(alloc, line)?;
    Ok(row.run(alloc, ends))
}

/// Whether the run of a line over a reader of such pieces writes what it is to, flushes once, and reads each piece and the
/// end; and how often it writes.
fn told_by(alloc: Global, line: &str, most: usize) -> Result<(bool, u32), Fail> {
    let row = Row::read(alloc, line)?;
    let (did, taken) = row.run(alloc, Ends::of(most, 1_000_000));
    let pieces = row.input.as_bytes().chunks(most.max(1)).count();
    let is_read = did.reads as usize == pieces.saturating_add(1) && did.source_ended;
    let is_sent = did.flushes == 1 && row.is_as_told(&taken, did.status);
    Ok((is_read && is_sent, did.writes))
}

#[test]
fn answers_go_out_before_more_is_read(rt: HostRuntime) -> Result<(), Fail> {
    // The bytes of a piece, and how many pieces end a line. The end of the input is one if it ends a line.
    for (line, most, writes) in [
        (ENDED[0], 1, 3),
        (ENDED[0], 5, 2),
        (ENDED[0], 6, 3),
        (ENDED[0], 4_096, 2),
        (ENDED[1], 1, 3),
        (ENDED[1], 4_096, 1),
        (ENDED[2], 2, 3),
        (ENDED[2], 3, 2),
        (ENDED[2], 4_096, 2),
        (ENDED[3], 1, 3),
        (ENDED[3], 3, 2),
        (ENDED[3], 4_096, 1),
        (RIGHT, 1, 1),
        (RIGHT, 2, 1),
        (RIGHT, 3, 1),
        (RIGHT, 4_096, 1),
        (NO_GRIDS[0], 4_096, 1),
        (NO_GRIDS[1], 4_096, 1),
        (NO_GRIDS[2], 4_096, 1),
    ] {
        let told = told_by(rt.alloc(), line, most)?;
        assert_eq!(rt; told, (true, writes), "{line} by {most}");
    }
    Ok(())
}

#[test]
fn a_failing_reader_leaves_a_beginning(rt: HostRuntime) -> Result<(), Fail> {
    for (line, first, last, written) in [
        (LINES, 1, 6, ""),
        (LINES, 7, 7, "one\n.\n"),
        (LINES, 8, 17, "one\n.\nrefused: no colon\n"),
        (RIGHT, 1, 73, ""),
        ("check pattern 2x1:1//1 < #. > 6", 1, 1, ""),
    ] {
        for read_fails_at in first..last + 1 {
            let mut ends = Ends::of(1, 1_000_000);
            ends.read_fails_at = read_fails_at;
            let (did, taken) = seen_over(rt.alloc(), line, ends)?;
            assert_eq!(rt; did.status, 6, "{line} at {read_fails_at}");
            assert!(rt; did.source_failed && !did.source_ended && !did.sink_failed);
            assert_eq!(rt; did.reads, read_fails_at, "{line}");
            assert_eq!(rt; taken.as_slice(), written.as_bytes(), "{line}");
            assert_eq!(rt; did.writes == 0, written.is_empty(), "{line}");
        }
    }
    Ok(())
}

#[test]
fn a_failing_writer_leaves_a_beginning(rt: HostRuntime) -> Result<(), Fail> {
    // The writer takes so many bytes a call. It fails at a call, or at a flush if that is 0.
    for (line, writes, write_fails_at, written, calls, reads) in [
        (LINES, 4_096, 1, "", 1, 6),
        (LINES, 4_096, 2, "one\n.\n", 2, 7),
        (LINES, 4_096, 3, "one\n.\nrefused: no colon\n", 3, 17),
        (SOLVED, 1, 1, "", 1, 0),
        (SOLVED, 1, 2, "o", 2, 0),
        (SOLVED, 1, 3, "on", 3, 0),
        (SOLVED, 1, 4, "one", 4, 0),
        (SOLVED, 1, 5, "one\n", 5, 0),
        (SOLVED, 1, 6, "one\n#", 6, 0),
        (SOLVED, 1, 7, "one\n##", 7, 0),
        (SOLVED, 1, 8, "one\n##.", 8, 0),
        (SOLVED, 1, 9, "one\n##.#", 9, 0),
        (SOLVED, 1, 10, "one\n##.##", 10, 0),
        (SOLVED, 4_096, 0, "one\n##.##\n", 1, 0),
        (SOLVED, 1, 0, "one\n##.##\n", 10, 0),
    ] {
        let mut ends = Ends::of(1, writes);
        ends.write_fails_at = write_fails_at;
        ends.flush_works = write_fails_at > 0;
        let (did, taken) = seen_over(rt.alloc(), line, ends)?;
        assert!(rt;
            did.status == 6 && did.sink_failed,
            "{line} at {write_fails_at}"
        );
        assert_eq!(rt; taken.as_slice(), written.as_bytes(), "{line}");
        assert_eq!(rt; did.writes, calls, "{line} at {write_fails_at}");
        assert_eq!(rt; did.flushes > 0, write_fails_at == 0, "{line}");
        assert_eq!(rt; (did.reads, did.fetches), (reads, reads), "{line}");
    }
    let mut ends = Ends::of(1, 0);
    ends.flush_works = false;
    let (did, taken) = seen_over(rt.alloc(), SOLVED, ends)?;
    assert_eq!(rt;
        (did.status, did.writes, did.flushes, taken.len()),
        (6, 1, 0, 0)
    );
    Ok(())
}

#[test]
fn an_endless_reader_is_given_up(rt: HostRuntime) -> Result<(), Fail> {
    let mut ends = Ends::of(1, 4_096);
    ends.is_endless = true;
    for words in [&["solve", "pattern"][..], &["check", "pattern", "2x1:1//1"]] {
        let words = texts(rt.alloc(), words)?;
        let (did, _) = observe(rt.alloc(), &words, b"#", ends);
        assert!(rt; !did.source_failed && !did.source_ended && !did.sink_failed);
        assert_eq!(rt; (did.status, did.writes), (6, 0));
        assert_eq!(rt; (did.fetches, did.reads), (1_048_576, 1_048_576));
    }
    Ok(())
}

#[test]
fn a_source_tells_of_its_reader(rt: HostRuntime) {
    let (mut ends, mut buffer) = (Ends::of(2, 1), [0u8; 4]);
    let mut source = ReadEnd::new(Chunks::of(b"abcde", ends));
    for (k, count) in [2, 2, 1, 0].iter().enumerate() {
        assert!(rt; !source.ended() && !source.failed() && source.calls() < 4);
        assert_eq!(rt; source.fetch(&mut buffer), Some(*count), "call {k}");
        assert_eq!(rt; source.calls() as usize, k + 1);
    }
    assert!(rt; source.ended() && !source.failed());
    ends.read_fails_at = 1;
    let mut failing = ReadEnd::new(Chunks::of(b"abcde", ends));
    assert_eq!(rt; failing.fetch(&mut buffer), None);
    assert!(rt; failing.failed() && !failing.ended());
}

/// For `rt try --test --fail-alloc N` alone, by which the N-th growth of this run may be refused. With ample memory the
/// tables of runs say what is written.
#[test]
fn want_of_memory_leaves_a_beginning(rt: HostRuntime) {
    let Ok(words) = texts(rt.alloc(), &["solve", "pattern", "5x1:1/1//1/1/2.2"]) else {
        return;
    };
    let answer = b"one\n##.##\n".as_slice();
    let (taken, status) = run_on_bytes(rt.alloc(), words.as_slice(), b"unread");
    assert!(rt; status == 0 || status == 5);
    assert!(rt; answer.starts_with(taken.as_slice()));
    assert_eq!(rt; taken.len() == answer.len(), status == 0);
}

/// The words that ask for a trace of a puzzle of Solo 5x5 with every second number of a whole grid.
fn long_words(alloc: Global) -> Result<Vec<String>, AllocError> {
    let mut id = String::from_str(alloc, "5x5:")?;
    for place in 0..625usize {
        if place % 2 == 0 {
            id.push_str("a")?;
        } else {
            let (x, y) = (place % 25, place / 25);
            push_number(&mut id, (y % 5 * 5 + y / 5 + x) % 25 + 1)?;
        }
    }
    texts(alloc, &["grade", "solo", &id, "--trace"])
}

/// What these words do where the writer fails at one piece, or at none if that is 0.
fn seen_failing(alloc: Global, words: &[String], write_fails_at: u32) -> (Did, Vec<u8>) {
    let mut ends = Ends::of(1, 1_000_000);
    ends.write_fails_at = write_fails_at;
    observe(alloc, words, b"unread", ends)
}

/// Whether a writer that fails at one piece is left with a beginning of the whole, and with status
/// 6, or with the whole if there are fewer pieces.
fn is_cut(alloc: Global, words: &[String], fails_at: u32, pieces: u32, whole: &[u8]) -> bool {
    let (did, taken) = seen_failing(alloc, words, fails_at);
    let is_whole = taken.len() == whole.len();
    let is_told = did.status == if is_whole { 0 } else { 6 };
    whole.starts_with(&taken) && is_told && is_whole == (fails_at > pieces)
}

/// A trace of that ID goes out in pieces. A writer that would fail at one of five later puts takes it whole.
#[test]
fn a_long_trace_goes_out_in_pieces(rt: HostRuntime) -> Result<(), Fail> {
    let words = long_words(rt.alloc())?;
    let (did, whole) = seen_failing(rt.alloc(), &words, 0);
    let pieces = did.writes;
    assert!(rt; did.status == 0 && pieces > 1);
    for fails_at in 1..pieces.saturating_add(6) {
        let is_cut = is_cut(rt.alloc(), &words, fails_at, pieces, &whole);
        assert!(rt; is_cut, "at {fails_at} of {pieces}");
    }
    Ok(())
}
